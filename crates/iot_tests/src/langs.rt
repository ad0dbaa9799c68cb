//! Scripts as they are printed.
use iot_lang::{parse, print};
use std::test::Fail;

/// A script with every form of line, as it is printed.
const WHOLE: &[u8] =
    b"set name \"a b\"x$y\nread name /d/$name\nmkdir /d\nrmdir /d\nrm /d/a\nwrite /d/a \"one\\n\\\"\\\\\"\n\
append /d/a 2\ncopy /d/a /d/b\nconcat /c /a /b\nmv /a /b\ncat /a\nls /\nkeep /a /b\n\
if file /a {\nif dir /b {\nif same /a /b {\nstop\n}\n} else {\n}\n} else {\nif ok {\n} else {\necho no\n}\n}\n\
for x in /d {\necho $x\n}\n";

/// One with comments and blanks, and how it is printed.
const SPACED: &[u8] = b"# a comment\n\n \tfor  x\tin /d {\t\n  if ok { \n } else {\n#\n}\n}\n stop";

const PRINTED: &[u8] = b"for x in /d {\nif ok {\n} else {\n}\n}\nstop\n";

#[test]
fn prints_what_it_read(rt: HostRuntime) -> Result<(), Fail> {
    for (text, printed) in [(WHOLE, WHOLE), (SPACED, PRINTED)] {
        let script = parse(rt.alloc(), text)?;
        assert_eq!(rt; print(rt.alloc(), &script)?.as_bytes(), printed);
    }
    Ok(())
}
