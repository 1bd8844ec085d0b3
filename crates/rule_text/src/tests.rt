use crate::write;
use std::io;

// Letters of each number of digits, as they are and negated: a table that is refused has a text too.
#[test]
fn letters_have_all_their_digits(rt: HostRuntime) -> io::Result<()> {
    let letters: [(u32, &[u8], &[u8]); 8] = [
        (0, b"p0", b"!p0"),
        (9, b"p9", b"!p9"),
        (10, b"p10", b"!p10"),
        (99, b"p99", b"!p99"),
        (100, b"p100", b"!p100"),
        (999, b"p999", b"!p999"),
        (1000, b"p1000", b"!p1000"),
        (16383, b"p16383", b"!p16383"),
    ];
    for (letter, plain, negated) in letters {
        let mut text = Vec::new(rt.alloc());
        write(&mut text, &[(3 << 28) + letter], plain.len() as u64)?;
        assert_eq!(rt; text.as_slice(), plain, "letter {letter}");
        text.clear();
        write(&mut text, &[(4 << 28) + letter], negated.len() as u64)?;
        assert_eq!(rt; text.as_slice(), negated, "letter {letter}, negated");
    }
    Ok(())
}
