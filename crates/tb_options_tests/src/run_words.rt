//! The words of the judge of recorded runs as they are typed.

use std::test::Fail;
use tb_options::file_named;

#[test]
fn file_of_words(rt: HostRuntime) -> Result<(), Fail> {
    let table: [(&[&str], Option<&str>); 5] = [
        (&["taskcheck"], None),
        (&["taskcheck", "sum.run"], Some("sum.run")),
        (&["taskcheck", "-"], Some("-")),
        (&["taskcheck", "--", "--version"], Some("--version")),
        (&["taskcheck", "a b"], Some("a b")),
    ];
    for (words, file) in table {
        let Ok(found) = file_named(rt.alloc(), words) else {
            panic!(rt; "refused");
        };
        assert!(rt; found == file);
    }
    Ok(())
}

#[test]
fn faults_of_words_help_and_version(rt: HostRuntime) -> Result<(), Fail> {
    let table: [(&[&str], bool); 6] = [
        (&["taskcheck", "a.run", "b.run"], true),
        (&["taskcheck", "--limit"], true),
        (&["taskcheck", "--limit", "5"], true),
        (&["taskcheck", "-x"], true),
        (&["taskcheck", "--help"], false),
        (&["taskcheck", "-V"], false),
    ];
    for (words, is_fault) in table {
        match file_named(rt.alloc(), words) {
            Ok(_) => panic!(rt; "accepted"),
            Err(error) => assert_eq!(rt; error.use_stderr(), is_fault),
        }
    }
    Ok(())
}

#[test]
fn the_help_has_a_run_and_its_report(rt: HostRuntime) -> Result<(), Fail> {
    let words: [&str; 2] = ["taskcheck", "--help"];
    match file_named(rt.alloc(), words.as_slice()) {
        Ok(_) => panic!(rt; "accepted"),
        Err(error) => {
            let text = format!(in rt.alloc(); "{error}")?;
            assert!(rt; text.as_str().contains("0 spawn 0.1 write"));
            assert!(rt; text.as_str().contains("0.1#2 0.2#2 cell 0"));
        }
    }
    Ok(())
}
