//! Full queues, their order, and messages taken by name.

use msg_queue::{Msg, Queues};
use std::test::Fail;

/// A short message without payload, told from the others by its word.
fn short(to: u8, from: u8, word: u16, high: bool) -> Msg<()> {
    Msg {
        to,
        from,
        sort: 3,
        byte: 0,
        word,
        long: false,
        len: 0,
        load: None,
        high,
    }
}

/// The word of a message, where there is one.
fn word_of(m: Option<&Msg<()>>) -> Option<u16> {
    m.map(|m| m.word)
}

#[test]
fn holds_sixteen_each(rt: HostRuntime) -> Result<(), Fail> {
    let mut queues = Queues::new(rt.alloc())?;
    for word in 0..16 {
        assert!(rt; queues.post(short(1, 2, word, false)).is_ok());
        assert!(rt; queues.post(short(1, 2, 100 + word, true)).is_ok());
    }
    for (high, word) in [(false, 16), (true, 116)] {
        let back = queues.post(short(1, 2, word, high)).err();
        assert_eq!(rt; word_of(back.as_ref()), Some(word), "handed back");
        assert_eq!(rt; queues.count(high), 16);
    }
    assert_eq!(rt; word_of(queues.at(false, 15)), Some(15));
    assert_eq!(rt; word_of(queues.at(true, 0)), Some(100));
    assert_eq!(rt; word_of(queues.at(true, 16)), None);
    Ok(())
}

#[test]
fn takes_in_order(rt: HostRuntime) -> Result<(), Fail> {
    let mut queues = Queues::new(rt.alloc())?;
    for (to, from, word, high) in [
        (1, 2, 10, false),
        (3, 1, 11, false),
        (4, 5, 12, false),
        (2, 4, 13, true),
        (1, 3, 14, true),
        (6, 0, 15, true),
    ] {
        assert!(rt; queues.post(short(to, from, word, high)).is_ok());
    }
    // By receiver in the high queue, then by sender and by receiver in the low one.
    for (id, word) in [
        (1, Some(14)),
        (1, Some(10)),
        (1, Some(11)),
        (1, None),
        (9, None),
    ] {
        assert_eq!(rt; word_of(queues.take_named(id).as_ref()), word, "named {id}");
    }
    for word in [Some(13), Some(15), Some(12), None] {
        assert_eq!(rt; word_of(queues.next().as_ref()), word);
    }
    Ok(())
}
