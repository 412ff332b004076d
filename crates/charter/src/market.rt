// The market's months: their records, and the charges that these come to.
use crate::parties::{NEWCOMER_SINCE, PARTIES, UNDER};
use activity::{Closed, Position, Table};
use anyhow::Context;
use records::{Determinant, Mark, Record};
use split::{Amount, split};
use std::alloc::Global;

// The charter's months, 0 to 359.
pub(crate) const MONTHS: u16 = 360;

// A participant's monthly record: `season` is added once for each month that the nearer end of the year is away,
// `growth` once for each year.
#[derive(Clone, Copy)]
struct Meter {
    participant: usize,
    since: u16,
    determinant: Determinant,
    mark: Option<Mark>,
    base: i32,
    season: i32,
    growth: i32,
}

// Load with storage for the first Counter-Party, purchases for the second, generation and imports for the third,
// day-ahead purchases for the fourth, congestion revenue rights for the fifth.
const METERS: [Meter; 10] = [
    Meter {
        participant: 0,
        since: 0,
        determinant: Determinant::Rtamlexsecm,
        mark: None,
        base: 5_000_000,
        season: 120_011,
        growth: 20_003,
    },
    Meter {
        participant: 1,
        since: 0,
        determinant: Determinant::Mebl,
        mark: None,
        base: -400_000,
        season: -10_007,
        growth: 0,
    },
    Meter {
        participant: 1,
        since: 0,
        determinant: Determinant::Daes,
        mark: None,
        base: 900_000,
        season: 0,
        growth: 0,
    },
    Meter {
        participant: 2,
        since: 0,
        determinant: Determinant::Rtqqep,
        mark: None,
        base: 14_000_000,
        season: 300_001,
        growth: 11_003,
    },
    Meter {
        participant: 3,
        since: 0,
        determinant: Determinant::Rtmg,
        mark: None,
        base: 3_100_000,
        season: 70_001,
        growth: 9_001,
    },
    Meter {
        participant: 3,
        since: 0,
        determinant: Determinant::Rtmg,
        mark: Some(Mark::RucInterval),
        base: 500_000,
        season: 0,
        growth: 0,
    },
    Meter {
        participant: 3,
        since: 0,
        determinant: Determinant::Rtdcimp,
        mark: None,
        base: 700_003,
        season: 0,
        growth: 0,
    },
    Meter {
        participant: 4,
        since: 0,
        determinant: Determinant::Daep,
        mark: None,
        base: 2_400_000,
        season: 0,
        growth: 1_009,
    },
    Meter {
        participant: 5,
        since: NEWCOMER_SINCE,
        determinant: Determinant::Optp,
        mark: None,
        base: 1_500_000,
        season: 0,
        growth: 0,
    },
    Meter {
        participant: 6,
        since: NEWCOMER_SINCE,
        determinant: Determinant::Oblp,
        mark: None,
        base: 900_000,
        season: 33_333,
        growth: 0,
    },
];

fn quantity(meter: Meter, month: u16) -> i32 {
    let from_january = i32::from(month % 12);
    let inward = from_january.min(11 - from_january);
    let years = i32::from(month / 12);
    meter
        .base
        .saturating_add(meter.season.saturating_mul(inward))
        .saturating_add(meter.growth.saturating_mul(years))
}

// A closed month, with the table that its records were posted to.
#[derive(Drop)]
pub(crate) struct MarketMonth {
    pub(crate) table: Table,
    pub(crate) month: Closed,
}

impl MarketMonth {
    fn collect(month: u16) -> anyhow::Result<MarketMonth> {
        let mut table = Table::new();
        let collecting = table.open(month);
        for meter in METERS.iter().filter(|meter| meter.since <= month) {
            let record = Record {
                determinant: u8::from(meter.determinant),
                mark: meter.mark.map_or(0, u8::from),
                quantity: quantity(*meter, month),
            };
            table
                .post(&collecting, Position::new(meter.participant), record)
                .ok()
                .context("a record is refused")?;
        }
        let month = collecting.close();
        Ok(MarketMonth { table, month })
    }

    // What each Counter-Party will be charged of an amount, by place.
    pub(crate) fn expected_charges(&self, cents: u64) -> anyhow::Result<[u64; PARTIES]> {
        let mut activities = [0; PARTIES];
        let mut charges = [0; PARTIES];
        let amount = Amount::new(cents).ok().context("no amount")?;
        self.table
            .activities(&self.month, &UNDER, &mut activities)
            .ok()
            .context("another month's table")?;
        split(amount, &activities, &mut charges)
            .ok()
            .context("nothing to share by")?;
        Ok(charges)
    }
}

// The months by their numbers. Pushed, since each has 8 KiB, and would pass through a `try_collect` by value
// (docs/DESIGN-PASS.md).
pub(crate) fn collect_months(heap: Global) -> anyhow::Result<Vec<MarketMonth>> {
    let mut months = Vec::new(heap);
    for month in 0..MONTHS {
        months.push(MarketMonth::collect(month)?)?;
    }
    Ok(months)
}
