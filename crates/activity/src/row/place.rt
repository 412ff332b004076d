// Where a row keeps the sum of a determinant.
ghost use Rattle.std.specs.Prelude.{◌≡◌};
ghost use Rattle.activity.specs.Rows.{place as place_of, PlaceOk};

use records::Determinant;

#[derive(Clone, Copy)]
pub(crate) enum Place {
    Energy(usize),
    Interval(usize),
}

pub(crate) fn place_of(determinant: Determinant) -> Place
    ensures value { result ≡ place_of determinant }
    ensures within { PlaceOk result }
{
    match determinant {
        Determinant::Rtmg => Place::Energy(0),
        Determinant::Rtdcimp => Place::Interval(0),
        Determinant::Rtamlexsecm => Place::Energy(1),
        Determinant::Mebl => Place::Energy(2),
        Determinant::Rtqqes => Place::Interval(1),
        Determinant::Rtqqep => Place::Interval(2),
        Determinant::Daes => Place::Energy(3),
        Determinant::Daep => Place::Energy(4),
        Determinant::Rtobl => Place::Energy(5),
        Determinant::Rtobllo => Place::Energy(6),
        Determinant::Opt => Place::Energy(7),
        Determinant::Daobl => Place::Energy(8),
        Determinant::Opts => Place::Energy(9),
        Determinant::Obls => Place::Energy(10),
        Determinant::Optp => Place::Energy(11),
        Determinant::Oblp => Place::Energy(12),
    }
}
