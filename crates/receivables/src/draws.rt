// Draws on a row of instruments for past-due invoices.
ghost use Rattle.std.specs.Prelude.{◌≡◌, ℕ, ◌-◌, ◌^◌, ◌<◌, min, map, slice_index, slice_index_or, slice_set};
ghost use Rattle.calendar.specs.Moments.{when};
ghost use Rattle.security.specs.Rows.{NoRoomFalls, OnlyAt};
ghost use Rattle.receivables.specs.Invoices.{balances, is_past_due};
ghost use Rattle.receivables.specs.Laws.{Untouched};
ghost use Rattle.receivables.specs.Run.{paid, held_after, drawn_on, drawn_all, helds, outcome};

use crate::invoice::{Event, Invoice};
use calendar::Moment;
use security::Instrument;

// What a past-due run answers: the cents drawn, and the cents still owed on past-due invoices.
#[derive(Clone, Copy, PartialEq, Eq, Debug)]
pub struct Outcome {
    pub drawn: u64,
    pub owed: u64,
}

// Draws n from the instrument at a place of the row, and answers what that paid: nothing where the row has no such place.
fn draw_at<I: Instrument + Copy>(row: &mut [I], place: usize, n: u64) -> u64
    ensures paid { result ≡ min n (slice_index (map I.held row.old) place) }
    ensures helds { map I.held row.new ≡ slice_set (map I.held row.old) place (slice_index (map I.held row.old) place - n) }
    ensures others { OnlyAt place row.old row.new }
    ensures rooms { NoRoomFalls I.room row.old row.new }
{
    let Some(mut instrument) = row.get(place).copied() else {
        return 0;
    };
    let paid = instrument.draw(n);
    row[place] = instrument;
    paid
}

// Draws the invoice's balance from the instrument at its position, and answers what that paid.
fn collect<I: Instrument + Copy>(invoice: &mut Invoice, row: &mut [I]) -> u64
    ensures paid { result ≡ paid (map I.held row.old) invoice.old }
    ensures invoice { invoice.new ≡ drawn_on (map I.held row.old) invoice.old }
    ensures helds { map I.held row.new ≡ held_after (map I.held row.old) invoice.old }
    ensures others { OnlyAt invoice.old.position row.old row.new }
    ensures rooms { NoRoomFalls I.room row.old row.new }
{
    let paid = draw_at(row, invoice.position, invoice.balance);
    invoice.tell(Event::Draw(paid));
    invoice.tell(Event::PastDue);
    paid
}

// Draws for each past-due invoice of the list, in its order.
pub(crate) fn draw_all<I: Instrument + Copy>(
    list: &mut [Invoice],
    at: Moment,
    row: &mut [I],
) -> Outcome
    requires { balances list.old < 2 ^ 64 }
    ensures outcome { result ≡ outcome (is_past_due (when at)) list.old (map I.held row.old) }
    ensures list { list.new ≡ drawn_all (is_past_due (when at)) list.old (map I.held row.old) }
    ensures helds { map I.held row.new ≡ helds (is_past_due (when at)) list.old (map I.held row.old) }
    ensures others { (j : ℕ) (d : I) → Untouched (is_past_due (when at)) j list.old → slice_index_or row.new j d ≡ slice_index_or row.old j d }
    ensures rooms { NoRoomFalls I.room row.old row.new }
{
    let mut drawn = 0;
    let mut owed = 0;
    // Each draw changes the row that the next one reads.
    for invoice in list.iter_mut() {
        if invoice.is_past_due(at) {
            drawn += collect(invoice, row);
            owed += invoice.balance;
        }
    }
    Outcome { drawn, owed }
}
