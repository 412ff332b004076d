// Invoices, payments and the past-due run.
use calendar::Moment;
use receivables::{Charge, Event, Fault, Invoice, Receivables, State};
use security::{Cash, Instrument, Means};
use std::test::Fail;

const CHARGES: [Charge; 3] = [
    Charge {
        billed: 7,
        position: 0,
        cents: 100,
    },
    Charge {
        billed: 8,
        position: 1,
        cents: 0,
    },
    Charge {
        billed: 9,
        position: 2,
        cents: 50,
    },
];

fn balance_at(list: &[Invoice], k: usize) -> Option<u64> {
    list.get(k).map(|invoice| invoice.balance)
}

// No invoice for a charge of 0, and none where there are not places for all.
#[test]
fn places(rt: HostRuntime) -> Result<(), Fail> {
    let mut book: Receivables<3> = Receivables::new(rt.alloc(), 26)?;
    let issued = book.issue(&CHARGES, 1507)?;
    assert_eq!(rt; issued.count, 2);
    assert_eq!(rt; issued.first, 1);
    assert!(rt; book.issue(&CHARGES, 1507).is_err());
    assert_eq!(rt; book.invoices().len(), 2);
    assert!(rt; book.pay(2, 26, 50).is_ok());
    assert_eq!(rt; book.invoices().len(), 1);
    // A place is free again.
    let again = book.issue(&CHARGES, 1508)?;
    assert_eq!(rt; again.first, 3);
    Ok(())
}

#[test]
fn payments(rt: HostRuntime) -> Result<(), Fail> {
    let mut book: Receivables<256> = Receivables::new(rt.alloc(), 26)?;
    assert!(rt; book.issue(&CHARGES, 1507).is_ok());
    assert_eq!(rt; book.pay(3, 9, 0).map_err(Fault::number), Err(25));
    assert_eq!(rt; book.pay(1, 9, 0).map_err(Fault::number), Err(26));
    assert_eq!(rt; book.pay(1, 26, 0).map_err(Fault::number), Err(27));
    assert_eq!(rt; book.pay(1, 26, 101).map_err(Fault::number), Err(27));
    assert_eq!(rt; balance_at(book.invoices(), 0), Some(100));
    assert_eq!(rt; book.pay(1, 26, 33), Ok(67));
    assert_eq!(rt; book.owed_by(7), 67);
    assert_eq!(rt; book.owed_by(8), 0);
    assert_eq!(rt; book.owed_by(9), 50);
    assert_eq!(rt; book.pay(1, 26, 67), Ok(0));
    assert_eq!(rt; book.pay(1, 26, 1).map_err(Fault::number), Err(25));
    Ok(())
}

// Minute 1,020 of the due day is not past due, the next one is.
#[test]
fn past_due_run(rt: HostRuntime) -> Result<(), Fail> {
    let mut book: Receivables<256> = Receivables::new(rt.alloc(), 26)?;
    assert!(rt; book.issue(&CHARGES, 1507).is_ok());
    let mut row = [Cash::new(); 3];
    let mut cash = Cash::new();
    assert!(rt; cash.fund(Means::Cash, 60).is_ok());
    row[0] = cash;
    row[1] = cash;
    let five = Moment::new(1507, 1020).ok_or(6)?;
    let early = book.past_due(five, &mut row);
    assert_eq!(rt; early.drawn, 0);
    assert_eq!(rt; early.owed, 0);
    let later = Moment::new(1507, 1021).ok_or(6)?;
    let late = book.past_due(later, &mut row);
    assert_eq!(rt; late.drawn, 60);
    assert_eq!(rt; late.owed, 90);
    assert_eq!(rt; row[0].held(), 0);
    assert_eq!(rt; row[1].held(), 60);
    assert_eq!(rt; balance_at(book.invoices(), 0), Some(40));
    assert_eq!(rt; balance_at(book.invoices(), 1), Some(50));
    Ok(())
}

// A settled invoice stays settled.
#[test]
fn states(rt: HostRuntime) {
    let mut invoice = Invoice {
        number: 1,
        billed: 7,
        position: 0,
        balance: 5,
        due_day: 1507,
        state: State::Open,
    };
    invoice.tell(Event::Payment(2));
    assert_eq!(rt; invoice.state, State::Open);
    invoice.tell(Event::PastDue);
    assert_eq!(rt; invoice.state, State::Short);
    invoice.tell(Event::Draw(3));
    assert!(rt; invoice.is_settled());
    invoice.tell(Event::PastDue);
    assert_eq!(rt; invoice.state, State::Settled);
    assert_eq!(rt; invoice.balance, 0);
}
