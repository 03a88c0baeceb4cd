// A story: lines, and what each of them prints, without its line feed.
use script::printed::ROOM;
use script::script::Script;
use std::process::Abort;
use std::test::*;

pub(crate) type Story = &'static [(&'static str, &'static str)];

// The lines of one script, from the first on.
pub(crate) fn told(rt: &impl Abort, story: Story) -> Result<(), Fail> {
    let mut script = Script::new();
    for (line, printed) in story {
        let mut out = [b'?'; ROOM];
        let n = script.run(line.as_bytes(), &mut out)?;
        let text = printed.as_bytes();
        if text.is_empty() {
            assert_eq!(rt; n, 0);
        } else {
            assert_eq!(rt; n, text.len() + 1);
            assert_eq!(rt; &out[..text.len()], text);
            assert_eq!(rt; out[text.len()], b'\n');
        }
        // what is behind the line is not touched
        assert!(rt; out[n..].iter().all(|b| *b == b'?'));
    }
    Ok(())
}
