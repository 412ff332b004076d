// What is printed of units, marks, states and refusals.
use receivables::State;
use records::{Mark, Unit};
use security::{Cash, Instrument, Means};
use std::alloc::Global;
use std::fmt::Display;
use std::test::Fail;

fn text<T: Display>(heap: Global, value: &T) -> Result<String, Fail> {
    Ok(format!(in heap; "{value}")?)
}

#[test]
fn names(rt: HostRuntime) -> Result<(), Fail> {
    let heap = rt.alloc();
    assert_eq!(rt; text(heap, &Unit::MegawattHour)?.as_str(), "MWh");
    assert_eq!(rt; text(heap, &Mark::RmrResource)?.as_str(), "an RMR Resource");
    assert_eq!(rt; text(heap, &State::Short)?.as_str(), "short");
    assert_eq!(rt; text(heap, &Means::Letter)?.as_str(), "a letter of credit");
    Ok(())
}

#[test]
fn refusals(rt: HostRuntime) -> Result<(), Fail> {
    let heap = rt.alloc();
    let mut cash = Cash::new();
    let Err(refused) = cash.fund(Means::Letter, 5) else {
        return Err(Fail::new("cash is funded by letter"));
    };
    let said = text(heap, &refused)?;
    assert_eq!(rt;
        said.as_str(),
        "a funding of 5 cents by a letter of credit is above the room of 0"
    );
    let Err(unknown) = Means::try_from(3u8) else {
        return Err(Fail::new("means 3"));
    };
    let said = text(heap, &unknown)?;
    assert_eq!(rt; said.as_str(), "no means of funding has number 3");
    Ok(())
}
