// The forms of lines: their fields, numbers, patterns and lengths, and the buffer's size.
use crate::told::{Story, told};
use cable::refusal::Refusal;
use script::script::Script;
use std::test::*;

const FIELD_COUNTS: Story = &[
    ("post", "no\t4"),
    ("post\tclean\t", "no\t4"),
    ("misses", "no\t4"),
    ("misses\t1\t2", "no\t4"),
    ("pattern", "no\t4"),
    ("pattern\t1", "no\t4"),
    ("pattern\t1\tk\tk", "no\t4"),
    ("cabinet", "no\t4"),
    ("cabinet\t0", "no\t4"),
    ("cabinet\t0\t0\t0", "no\t4"),
    ("plant\t", "no\t4"),
    ("plant\t3", "no\t4"),
    ("want", "no\t4"),
    ("want\t0\t0", "no\t4"),
    ("leave", "no\t4"),
    ("leave\t0\t", "no\t4"),
    ("sweep", "no\t4"),
    ("sweep\t1\t1", "no\t4"),
    ("bound", "no\t4"),
    ("bound\t1\t1\t1\t1", "no\t4"),
];

// As the numbers of cabinets on a bare bank, where all that read well are refused by 10.
const NUMBERS: Story = &[
    ("post\tclean", ""),
    ("want\t0", "no\t10"),
    ("want\t9", "no\t10"),
    ("want\t10", "no\t10"),
    ("want\t65535", "no\t10"),
    ("want\t65536", "no\t10"),
    ("want\t99999", "no\t10"),
    ("want\t", "no\t5"),
    ("want\t00", "no\t5"),
    ("want\t007", "no\t5"),
    ("want\t100000", "no\t5"),
    ("want\t-1", "no\t5"),
    ("want\t+1", "no\t5"),
    ("want\t1a", "no\t5"),
    ("want\t 1", "no\t5"),
    ("want\t/", "no\t5"),
    ("want\t:", "no\t5"),
    ("want\t0\r", "no\t5"),
];

const PATTERNS: Story = &[
    ("post\tretry", ""),
    ("pattern\t0\tk", ""),
    ("pattern\t0\td", ""),
    ("pattern\t0\tl", ""),
    ("pattern\t59\tkdlkdlkdlkdlkdlk", ""),
    ("pattern\t59\tkdlkdlkdlkdlkdlkd", "no\t5"),
    ("pattern\t59\t", "no\t5"),
    ("pattern\t59\tx", "no\t5"),
    ("pattern\t59\tK", "no\t5"),
    ("pattern\t60\tx", "no\t5"),
    ("pattern\t60\tk", "no\t8"),
];

const WORDS: Story = &[
    ("", "no\t3"),
    ("\tpost", "no\t3"),
    ("Post\tclean", "no\t3"),
    ("pos\tclean", "no\t3"),
    ("posts\tclean", "no\t3"),
    ("plant\r", "no\t3"),
    ("plant ", "no\t3"),
    ("who", "no\t3"),
    ("post\tslow", "no\t5"),
    ("post\tClean", "no\t5"),
    ("post\t", "no\t5"),
    ("post\tclean", ""),
];

// A line of 80 bytes is read, and one of 81 is not, whatever it begins with.
const LENGTHS: Story = &[
    (
        "12345678901234567890123456789012345678901234567890123456789012345678901234567890",
        "no\t3",
    ),
    (
        "123456789012345678901234567890123456789012345678901234567890123456789012345678901",
        "no\t2",
    ),
    (
        "want\t12345678901234567890123456789012345678901234567890123456789012345678901234567",
        "no\t2",
    ),
    (
        "want\t123456789012345678901234567890123456789012345678901234567890123456789012345",
        "no\t5",
    ),
];

#[test]
fn lines_are_read(rt: HostRuntime) -> Result<(), Fail> {
    for story in [FIELD_COUNTS, NUMBERS, PATTERNS, WORDS, LENGTHS] {
        told(&rt, story)?;
    }
    Ok(())
}

#[test]
fn a_buffer_has_64_bytes(rt: HostRuntime) -> Result<(), Fail> {
    let mut script = Script::new();
    let mut small = [7; 63];
    let mut large = [7; 65];
    assert_eq!(rt;
        script.run(b"post\tclean", &mut small),
        Err(Refusal::BufferTooSmall)
    );
    assert_eq!(rt;
        script.run(b"nonsense", &mut small[..0]),
        Err(Refusal::BufferTooSmall)
    );
    assert_eq!(rt; small, [7; 63]);
    // the post was not named
    assert_eq!(rt; script.run(b"plant", &mut large[..64]), Ok(5));
    assert_eq!(rt; &large[..6], b"no\t6\n\x07".as_slice());
    assert_eq!(rt; script.run(b"post\tclean", &mut large), Ok(0));
    assert_eq!(rt; script.run(b"plant", &mut large), Ok(6));
    assert_eq!(rt; &large[..7], b"no\t12\n\x07".as_slice());
    Ok(())
}
