// A line whose text and index are given.
use crate::Line;

#[test]
fn a_text_is_taken_as_it_stands(rt: HostRuntime) {
    let line = Line::new(b"7 ab\n", Some(0));
    assert_eq!(rt; line.text, b"7 ab\n".as_slice());
    assert_eq!(rt; line.part(1).unwrap_or(b""), b"ab\n".as_slice());
    assert_eq!(rt; line.number_at(1), Some(0x61620a));
    assert_eq!(rt; line.number(1), 0x61620a);
    assert_eq!(rt; line.word(1).letters(), b"ab\n".as_slice());
    assert_eq!(rt; line.arguments::<2>(0), [0x61620a, 0]);
}

#[test]
fn an_index_is_taken_as_it_stands(rt: HostRuntime) {
    let line = Line::new(b"7 8 = 9", Some(1));
    assert_eq!(rt;
        (line.wanted(0), line.wanted(2), line.wanted(3)),
        (Some(8), Some(9), None)
    );
    assert_eq!(rt; Line::new(b"7 8 = 9", None).wanted(0), None);
    assert_eq!(rt; Line::of(b"7 8 = 9\n").wanted(0), Some(9));
}
