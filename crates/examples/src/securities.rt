// Instruments and remarks.
use remarks::{Digits, invoice_number};
use security::{Cash, Instrument, Letter, Means, Pair};

#[test]
fn cash(rt: HostRuntime) {
    let mut cash = Cash::new();
    assert_eq!(rt; cash.room(Means::Cash), 10_000_000_000);
    assert_eq!(rt; cash.room(Means::Letter), 0);
    assert!(rt; cash.fund(Means::Cash, 10_000_000_000).is_ok());
    assert_eq!(rt;
        cash.fund(Means::Cash, 1).map_err(|refused| refused.room),
        Err(0)
    );
    assert_eq!(rt; cash.draw(4), 4);
    assert_eq!(rt; cash.held(), 9_999_999_996);
    assert_eq!(rt; cash.room(Means::Cash), 4);
}

// The face stays when a letter is drawn, and so does the room.
#[test]
fn letter(rt: HostRuntime) {
    let mut letter = Letter::new();
    assert_eq!(rt;
        letter.fund(Means::Cash, 1).map_err(|refused| refused.room),
        Err(0)
    );
    assert!(rt; letter.fund(Means::Letter, 40).is_ok());
    assert_eq!(rt; letter.draw(50), 40);
    assert_eq!(rt; letter.held(), 0);
    assert_eq!(rt; letter.room(Means::Letter), 9_999_999_960);
}

#[test]
fn cash_with_letter(rt: HostRuntime) {
    let mut pair = Pair {
        first: Cash::new(),
        second: Letter::new(),
    };
    assert!(rt; pair.fund(Means::Cash, 30).is_ok());
    assert!(rt; pair.fund(Means::Letter, 40).is_ok());
    assert_eq!(rt; pair.held(), 70);
    assert_eq!(rt; pair.draw(50), 50);
    assert_eq!(rt; pair.first.held(), 0);
    assert_eq!(rt; pair.second.held(), 20);
    assert_eq!(rt;
        pair.fund(Means::Letter, 10_000_000_000)
            .map_err(|refused| refused.room),
        Err(9_999_999_960)
    );
}

#[test]
fn means(rt: HostRuntime) {
    assert_eq!(rt; Means::Letter.number(), 2);
    assert!(rt; Means::try_from(1u8).is_ok());
    assert!(rt; Means::try_from(0u8).is_err());
    assert!(rt; Means::try_from(3u8).is_err());
}

#[test]
fn remarks(rt: HostRuntime) {
    let five = Digits::five();
    assert_eq!(rt; invoice_number(b"INV007", five), Some(7));
    assert_eq!(rt; invoice_number(b"INV123456", five), None);
    assert_eq!(rt; invoice_number(b"INV123456 INV7", five), None);
    assert_eq!(rt; invoice_number(b"thanks, INVINV12x34", five), Some(12));
    assert_eq!(rt; invoice_number(b"inv7 INV", five), None);
    assert_eq!(rt; invoice_number(b"", five), None);
}

// 64 bytes are read, 65 are not.
#[test]
fn long_remarks(rt: HostRuntime) {
    let mut remark = [b'.'; 65];
    remark[60] = b'I';
    remark[61] = b'N';
    remark[62] = b'V';
    remark[63] = b'9';
    assert_eq!(rt; invoice_number(&remark[0..64], Digits::five()), Some(9));
    assert_eq!(rt; invoice_number(&remark, Digits::five()), None);
}
