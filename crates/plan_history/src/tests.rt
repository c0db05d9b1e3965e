//! What a program sees of a history.

use crate::History;

#[test]
fn a_history_has_no_bytes(rt: HostRuntime) {
    let mut history = History::new();
    for number in 0..100u64 {
        history = history.and(&number);
    }
    history = history.without_last();
    assert_eq!(rt; std::mem::size_of_val(&history), 0);
}
