// The sixteen determinants, each with its number, unit and group.
ghost use Rattle.std.specs.Prelude.{◌≡◌, Some};
ghost use Rattle.records.specs.Determinants.{Decodes, facts, group_number};
ghost use Rattle.records.specs.Texts.{unit_text};

use crate::fault::Fault;
use std::fmt;

// By the market's own codes for what is settled.
#[derive(Clone, Copy, PartialEq, Eq, Debug)]
pub enum Determinant {
    Rtmg = 1,
    Rtdcimp = 2,
    Rtamlexsecm = 3,
    Mebl = 4,
    Rtqqes = 5,
    Rtqqep = 6,
    Daes = 7,
    Daep = 8,
    Rtobl = 9,
    Rtobllo = 10,
    Opt = 11,
    Daobl = 12,
    Opts = 13,
    Obls = 14,
    Optp = 15,
    Oblp = 16,
}

// What a quantity is a thousandth of.
#[derive(Clone, Copy, PartialEq, Eq, Debug)]
pub enum Unit {
    MegawattHour,
    MegawattOverHour,
    MegawattOverQuarterHour,
}

// Determinants whose quantities are added.
#[derive(Clone, Copy, PartialEq, Eq, Debug)]
pub enum Group {
    Generation = 1,
    Load = 2,
    Sales = 3,
    Purchases = 4,
    DayAheadSales = 5,
    DayAheadPurchases = 6,
    RealTimeObligations = 7,
    CongestionRights = 8,
    CongestionRightPurchases = 9,
}

impl TryFrom<u8> for Determinant {
    type Error = Fault;

    ghost try_from_gives = { Decodes };

    fn try_from(number: u8) -> Result<Determinant, Fault> {
        match number {
            1 => Ok(Determinant::Rtmg),
            2 => Ok(Determinant::Rtdcimp),
            3 => Ok(Determinant::Rtamlexsecm),
            4 => Ok(Determinant::Mebl),
            5 => Ok(Determinant::Rtqqes),
            6 => Ok(Determinant::Rtqqep),
            7 => Ok(Determinant::Daes),
            8 => Ok(Determinant::Daep),
            9 => Ok(Determinant::Rtobl),
            10 => Ok(Determinant::Rtobllo),
            11 => Ok(Determinant::Opt),
            12 => Ok(Determinant::Daobl),
            13 => Ok(Determinant::Opts),
            14 => Ok(Determinant::Obls),
            15 => Ok(Determinant::Optp),
            16 => Ok(Determinant::Oblp),
            _ => Err(Fault::Determinant),
        }
    }
}

impl From<Determinant> for u8 {
    ghost from_gives = { λ d n. n ≡ (facts d).number };

    fn from(determinant: Determinant) -> u8 {
        determinant as u8
    }
}

impl Determinant {
    pub fn unit(self) -> Unit
        ensures { result ≡ (facts self).unit }
    {
        match self {
            Determinant::Rtmg | Determinant::Rtamlexsecm | Determinant::Mebl => Unit::MegawattHour,
            Determinant::Rtdcimp | Determinant::Rtqqes | Determinant::Rtqqep =>
                Unit::MegawattOverQuarterHour,
            _ => Unit::MegawattOverHour,
        }
    }

    pub fn group(self) -> Group
        ensures { result ≡ (facts self).group }
    {
        match self {
            Determinant::Rtmg | Determinant::Rtdcimp => Group::Generation,
            Determinant::Rtamlexsecm | Determinant::Mebl => Group::Load,
            Determinant::Rtqqes => Group::Sales,
            Determinant::Rtqqep => Group::Purchases,
            Determinant::Daes => Group::DayAheadSales,
            Determinant::Daep => Group::DayAheadPurchases,
            Determinant::Rtobl | Determinant::Rtobllo => Group::RealTimeObligations,
            Determinant::Opt | Determinant::Daobl | Determinant::Opts | Determinant::Obls =>
                Group::CongestionRights,
            Determinant::Optp | Determinant::Oblp => Group::CongestionRightPurchases,
        }
    }
}

impl fmt::Display for Unit {
    ghost output = { λ unit. Some (unit_text unit) };

    fn fmt<W: fmt::Write>(&self, f: &mut fmt::Formatter<W>) -> fmt::Result {
        f.write_str(match self {
            Unit::MegawattHour => "MWh",
            Unit::MegawattOverHour => "MW over an hour",
            Unit::MegawattOverQuarterHour => "MW over 15 minutes",
        })
    }
}

impl Group {
    // By rising number.
    pub const ALL: [Group; 9] = [
        Group::Generation,
        Group::Load,
        Group::Sales,
        Group::Purchases,
        Group::DayAheadSales,
        Group::DayAheadPurchases,
        Group::RealTimeObligations,
        Group::CongestionRights,
        Group::CongestionRightPurchases,
    ];

    pub fn number(self) -> u8
        ensures { result ≡ group_number self }
    {
        self as u8
    }
}
