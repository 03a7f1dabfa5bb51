use crate::explanation;
use std::alloc::{AllocError, Global};
use std::test::Fail;

fn words(alloc: Global, line: &str) -> Result<Vec<String>, AllocError> {
    let mut words = Vec::new(alloc);
    for word in line.split_whitespace() {
        words.push(String::from_str(alloc, word)?)?;
    }
    Ok(words)
}

/// The first line of the explanation, without its end.
fn first_line(alloc: Global, line: &str) -> Result<String, Fail> {
    let text = explanation(alloc, words(alloc, line)?.as_slice())?;
    let text = String::from_utf8(text.into_vec()).map_err(|_| "no text")?;
    let first = text.as_str().lines().next().unwrap_or("");
    Ok(String::from_str(alloc, first)?)
}

/// Whether the explanation begins with the line.
fn begins(alloc: Global, line: &str, first: &str) -> Result<bool, Fail> {
    Ok(first_line(alloc, line)?.as_str() == first)
}

#[test]
fn complaints(rt: HostRuntime) -> Result<(), Fail> {
    let alloc = rt.alloc();
    assert!(rt; begins(alloc, "run --foo=1 p", "  there is no option --foo")?);
    assert!(rt; begins(alloc, "run p --harts 1 --harts=2", "  --harts stands twice")?);
    assert!(rt; begins(alloc, "alone p --save --", "  --save wants a file's name")?);
    assert!(rt;
        begins(
            alloc,
            "run --budget 20M p",
            "  --budget wants a number from 1 to 20000000, not '20M'"
        )?
    );
    assert!(rt;
        begins(
            alloc,
            "load 1001",
            "  N wants a number from 1 to 1000, not '1001'"
        )?
    );
    assert!(rt; begins(alloc, "audit h p", "  INPUT is missing")?);
    assert!(rt; begins(alloc, "list p q", "  'q' is a word too many")?);
    Ok(())
}

#[test]
fn whole_explanations(rt: HostRuntime) -> Result<(), Fail> {
    let alloc = rt.alloc();
    let port = explanation(alloc, words(alloc, "run p abc")?.as_slice())?;
    assert!(rt;
        port.items()
            == b"  'abc' is no port: a port is IN:OUT, two files' names with one colon between
  usage: rescue run [--points FILE] [--harts N] [--budget N] [--save FILE]
         [--report FILE] PROGRAM [IN:OUT ..]
"
                .as_slice()
    );
    let unknown = explanation(alloc, words(alloc, "fly")?.as_slice())?;
    assert!(rt;
        unknown.items()
            == b"  there is no command 'fly'
  the commands are run, alone, list, load, audit and try
  rescue --help tells more
"
                .as_slice()
    );
    assert!(rt;
        explanation(alloc, words(alloc, "list p")?.as_slice())?
            .items()
            .is_empty()
    );
    Ok(())
}
