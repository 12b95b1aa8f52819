//! The options as they are typed.

use std::test::Fail;
use tb_options::settings;

#[test]
fn settings_of_words(rt: HostRuntime) -> Result<(), Fail> {
    let table: [(&[&str], u32, u32); 5] = [
        (&["taskback"], 4, 100_000),
        (&["taskback", "--workers", "1"], 1, 100_000),
        (&["taskback", "--workers=64", "--limit=1"], 64, 1),
        (&["taskback", "--limit", "1000000"], 4, 1_000_000),
        (&["taskback", "--limit", "0007", "--workers", "2"], 2, 7),
    ];
    for (words, workers, limit) in table {
        let Ok(found) = settings(rt.alloc(), words) else {
            panic!(rt; "refused");
        };
        assert_eq!(rt; found.workers, workers);
        assert_eq!(rt; found.limit, limit);
    }
    Ok(())
}

#[test]
fn faults_of_usage_and_help(rt: HostRuntime) -> Result<(), Fail> {
    let table: [(&[&str], i32); 11] = [
        (&["taskback", "--workers", "0"], 2),
        (&["taskback", "--workers", "65"], 2),
        (&["taskback", "--workers", "x"], 2),
        (&["taskback", "--workers"], 2),
        (&["taskback", "--limit", "0"], 2),
        (&["taskback", "--limit", "1000001"], 2),
        (&["taskback", "--limit", "-1"], 2),
        (&["taskback", "program"], 2),
        (&["taskback", "--fast"], 2),
        (&["taskback", "--help"], 0),
        (&["taskback", "--version"], 0),
    ];
    for (words, status) in table {
        match settings(rt.alloc(), words) {
            Ok(_) => panic!(rt; "accepted"),
            Err(error) => assert_eq!(rt; error.exit_code(), status),
        }
    }
    Ok(())
}

#[test]
fn the_help_has_examples(rt: HostRuntime) -> Result<(), Fail> {
    let words: [&str; 2] = ["taskback", "--help"];
    match settings(rt.alloc(), words.as_slice()) {
        Ok(_) => panic!(rt; "accepted"),
        Err(error) => {
            let text = format!(in rt.alloc(); "{error}")?;
            assert!(rt; text.as_str().contains("taskback < examples/race.session"));
            assert!(rt; text.as_str().contains("roll T#K"));
        }
    }
    Ok(())
}
