// Lines there and back, and lines that are refused.
use lines::*;

fn line(
    word: Word,
    one: Option<Number>,
    two: Option<Number>,
    three: Option<Number>,
    four: Option<Number>,
) -> Line {
    Line {
        word,
        one,
        two,
        three,
        four,
    }
}

#[test]
fn there_and_back(rt: HostRuntime) {
    let table = [
        (
            line(
                Word::Vect,
                Some(Number::Natural(0)),
                Some(Number::Below(99999)),
                None,
                Some(Number::Natural(999999)),
            ),
            *b".VECT     0-99999      999999\n.",
        ),
        (
            line(Word::Last, None, None, None, None),
            *b".LAST                        \n.",
        ),
        (
            line(
                Word::Stop,
                Some(Number::Natural(10)),
                Some(Number::Below(1)),
                Some(Number::Natural(1)),
                Some(Number::Natural(20407)),
            ),
            *b".STOP    10    -1     1 20407\n.",
        ),
    ];
    for (line, bytes) in table {
        let mut out = [b'.'; 31];
        write_line(line, &mut out, 1);
        assert_eq!(rt; out, bytes);
        assert_eq!(rt; read_line(&out[1..31]), Ok(line));
    }
}

#[test]
fn malformed_fields(rt: HostRuntime) {
    let table = [
        *b"MOVE   12x                  \n",
        *b"MOVE    -0                  \n",
        *b"MOVE    01                  \n",
        *b"MOVE    00                  \n",
        *b"MOVE    +1                  \n",
        *b"MOVE    1                   \n",
        *b"MOVE   1 1                  \n",
        *b"MOVE     -                  \n",
        *b"MOVE     \t                  \n",
        *b"MOVE   --1                  \n",
        *b"MOVE    1-                  \n",
        *b"MOVE     1                 \r\n",
    ];
    for bytes in table {
        assert_eq!(rt; read_line(&bytes), Err(LineFault::Field));
    }
}

#[test]
fn frames_and_words(rt: HostRuntime) {
    let table = [
        (*b"MOVE     1\n                 \n", LineFault::Frame),
        (*b"MOVE     1                  \r", LineFault::Frame),
        (*b"\nOVE     1                  \n", LineFault::Frame),
        (*b"Plat     1                  \n", LineFault::Word),
        (*b"PLAY    1x                  \n", LineFault::Word),
    ];
    for (bytes, fault) in table {
        assert_eq!(rt; read_line(&bytes), Err(fault));
    }
    assert_eq!(rt;
        read_line(b"MOVE     1                  "),
        Err(LineFault::Frame)
    );
    assert_eq!(rt; read_fields(Word::Last, b"LAST"), Err(LineFault::Frame));
    assert_eq!(rt; LineFault::Frame.number(), 41);
    assert_eq!(rt; LineFault::Word.number(), 42);
    assert_eq!(rt; LineFault::Field.number(), 43);
}

#[test]
fn numbers_that_are_due(rt: HostRuntime) {
    let (a, b) = (Number::Natural(3), Number::Below(4));
    let none = line(Word::Last, None, None, None, None);
    let one = line(Word::Move, Some(a), None, None, None);
    let two = line(Word::Move, Some(a), Some(b), None, None);
    let gap = line(Word::Move, Some(a), None, None, Some(b));
    let four = line(Word::Vect, Some(a), Some(b), Some(b), Some(a));
    assert_eq!(rt; none.numbers(), Ok([]));
    assert_eq!(rt; gap.numbers::<0>(), Err(LineFault::Field));
    assert_eq!(rt; one.numbers(), Ok([a]));
    assert_eq!(rt; gap.numbers::<1>(), Err(LineFault::Field));
    assert_eq!(rt; two.numbers(), Ok([a, b]));
    assert_eq!(rt; four.numbers::<2>(), Err(LineFault::Field));
    assert_eq!(rt; four.numbers(), Ok([a, b, b, a]));
    assert_eq!(rt; two.numbers::<4>(), Err(LineFault::Field));
}
