// Reads boxes as `period wait`, a line each, and tells when all of them first draw in one tick.
#![tactic(auto)]

mod meeting;
mod record;

use meeting::first_meeting;
use programs::status_of;
use std::process::ExitCode;
use std::{env, io};

const USAGE: &str = "usage: first_meeting < FILE
FILE has a box a line, as 'period wait': its period of 1 to 1000 ticks, and how many ticks it
waits before its first draw, fewer than its period. At most 24 boxes; '#' begins a comment.";

fn run(rt: &HostRuntime) -> anyhow::Result<()> {
    if env::args(rt)?.count() > 1 {
        rt.println(USAGE)?;
        return Ok(());
    }
    let text = io::read_to_string(rt.alloc(), rt.stdin())?;
    rt.print(first_meeting(rt.alloc(), text.as_str())?)?;
    Ok(())
}

fn main(rt: HostRuntime) -> ExitCode {
    let done = run(&rt);
    status_of(&rt, "first_meeting", done)
}

#[cfg(test)]
mod tests {
    use crate::meeting::first_meeting;
    use std::test::Fail;

    // Texts, and the whole record or the one line that says what is wrong.
    static CASES: [(&str, &str); 12] = [
        ("", "lcm of the periods: 1\nfirst common tick: 0\n"),
        (
            "5 1\n3 2",
            "box 1: period 5, wait 1\nbox 2: period 3, wait 2\nlcm of the periods: 15\nfirst common tick: 11\n",
        ),
        (
            " 4\t0 # a comment\r\n# another\n\n 6 +1\n",
            "box 1: period 4, wait 0\nbox 2: period 6, wait 1\nboxes 1 and 2 never meet\nlcm of the periods: 12\nfirst common tick: never\n",
        ),
        (
            "997 0\n991 0\n983 0\n977 0\n971 0\n967 0\n953 1\n",
            "box 1: period 997, wait 0\nbox 2: period 991, wait 0\nbox 3: period 983, wait 0\nbox 4: period 977, wait 0\nbox 5: period 971, wait 0\nbox 6: period 967, wait 0\nbox 7: period 953, wait 1\nlcm of the periods: above 10^18\nfirst common tick: -\n",
        ),
        (
            "5 1\n3\n",
            "line 2: expected 'period wait', two whole numbers",
        ),
        (
            "5 1 2\n",
            "line 1: expected 'period wait', two whole numbers",
        ),
        (
            "# none\n5 -1\n",
            "line 2: expected 'period wait', two whole numbers",
        ),
        (
            "5 1\n4294967296 0\n",
            "line 2: expected 'period wait', two whole numbers",
        ),
        (
            "5 1\n\n0 0\n9 9\n",
            "line 3: expected a period of 1 to 1000, found 0",
        ),
        (
            "1000 999\n1001 0\n",
            "line 2: expected a period of 1 to 1000, found 1001",
        ),
        (
            "70000 80000\n",
            "line 1: expected a period of 1 to 1000, found 70000",
        ),
        (
            "5 4\n7 7\n",
            "line 2: expected a wait below the period 7, found 7",
        ),
    ];

    #[test]
    fn tells_the_record_or_the_fault(rt: HostRuntime) -> Result<(), Fail> {
        for (text, want) in &CASES {
            match first_meeting(rt.alloc(), text) {
                Ok(record) => assert_eq!(rt; record.as_str(), *want),
                Err(fault) => assert_eq!(rt; fault.to_string(rt.alloc())?.as_str(), *want),
            }
        }
        Ok(())
    }

    #[test]
    fn takes_24_boxes_and_no_more(rt: HostRuntime) -> Result<(), Fail> {
        let mut text = String::new(rt.alloc());
        for _ in 0..24 {
            text.push_str("1 0\n")?;
        }
        assert!(rt; first_meeting(rt.alloc(), text.as_str()).is_ok());
        text.push_str("\n1 0\n")?;
        match first_meeting(rt.alloc(), text.as_str()) {
            Ok(_) => Err(Fail::new("25 boxes were taken")),
            Err(fault) => {
                assert_eq!(rt;
                    fault.to_string(rt.alloc())?.as_str(),
                    "line 26: expected at most 24 boxes"
                );
                Ok(())
            },
        }
    }
}
