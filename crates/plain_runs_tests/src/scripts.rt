//! Scripts with runs.

use crate::row::{are_answered, transcript};
use std::fmt::Write;
use std::test::Fail;

const REQUESTS: [(&str, &str, &str); 3] = [
    (
        "алг\nнач\nвывод 1\nкон",
        "run\nrun\nstop\nwait\nstop\n",
        "run 1 1\nout 1 1\nend 1 done\nrun 2 1\nout 2 1\nend 2 done\nstop idle\nwaited\nstop idle\n",
    ),
    (
        "алг\nнач\nвывод 1\nкон",
        "run\nedit 3 1 1\nвывод x\nrun\nedit 3 1 1\nвывод 2\nrun 5\nedit 1 1 1\nалг (цел n)\nrun\nwait\n",
        "run 1 1\nout 1 1\nend 1 done\nedit 2\nmargin 2 3:402\nrun 2 2\nrefused 2 faults\nedit 3\nmargin 3\nrun 3 3\nout 3 2\nend 3 done\nedit 4\nmargin 4\nrun 4 4\nrefused 4 main\nwaited\n",
    ),
    (
        "алг\nнач\nвывод 1\nкон",
        "edit 1 0 1\nиспользовать Робот\nrun\nedit 1 1 0\nrun\n",
        "edit 2\nmargin 2\nrun 1 2\nout 1 1\nend 1 done\nedit 3\nmargin 3\nrun 2 3\nout 2 1\nend 2 done\n",
    ),
];

#[test]
fn runs_are_of_the_newest_version(rt: HostRuntime) -> Result<(), Fail> {
    are_answered(&rt, rt.alloc(), &REQUESTS)
}

// Scripts with their transcripts and the status.
const SCRIPTS: [(&str, &str); 5] = [
    (
        "field 1\n3 1 1 1\nedit 1 0 9\nиспользовать Робот\nалг\nнач\nнц пока справа свободно\nзакрасить\nвправо\nкц\nвправо\nкон\nrun",
        "margin 0\nfield ok\nedit 1\nmargin 1\nrun 1 1\nrobot 1 1 справа_свободно да\nrobot 1 2 закрасить done\nrobot 1 3 вправо done\nrobot 1 4 справа_свободно да\nrobot 1 5 закрасить done\nrobot 1 6 вправо done\nrobot 1 7 справа_свободно нет\nrobot 1 8 вправо wall\nend 1 wall 8\nbye\n0",
    ),
    ("run", "margin 0\nrun 1 0\nrefused 1 main\nbye\n0"),
    (
        "edit 1 0 1\nвсе\nrun\n",
        "margin 0\nedit 1\nmargin 1 1:301\nrun 1 1\nrefused 1 faults\nbye\n0",
    ),
    (
        "edit 1 0 5\nиспользовать Робот\nалг\nнач\nвниз\nкон\nrun\nwait\n",
        "margin 0\nedit 1\nmargin 1\nrun 1 1\nrobot 1 1 вниз done\nend 1 done\nwaited\nbye\n0",
    ),
    (
        "edit 1 0 1\nиспользовать Чертежник\nrun 1\n",
        "margin 0\nedit 1\nmargin 1\nrun 1 1\nrefused 1 main\nbye\n0",
    ),
];

#[test]
fn scripts_are_answered(rt: HostRuntime) -> Result<(), Fail> {
    for (script, wanted) in SCRIPTS {
        let told = transcript(rt.alloc(), "plain", script)?;
        assert_eq!(rt; told.as_str(), wanted, "at {script}");
    }
    Ok(())
}

#[test]
fn a_thousand_runs_have_their_numbers(rt: HostRuntime) -> Result<(), Fail> {
    let alloc = rt.alloc();
    let mut script = String::from_str(alloc, "edit 1 0 4\nалг\nнач\nвывод 1\nкон\n")?;
    let mut wanted = String::from_str(alloc, "margin 0\nedit 1\nmargin 1\n")?;
    for number in 1..1_001_u32 {
        script.push_str("run\n")?;
        write!(
            wanted,
            "run {number} 1\nout {number} 1\nend {number} done\n"
        )?;
    }
    wanted.push_str("bye\n0")?;
    let told = transcript(alloc, "plain", script.as_str())?;
    assert!(rt; told.as_str() == wanted.as_str());
    Ok(())
}

// The words, and the status.
const WORDS: [(&str, &str); 9] = [
    ("plain --steps 0", "2"),
    ("plain --steps 100000001", "2"),
    ("plain --steps=5", "2"),
    ("plain --steps 05", "2"),
    ("plain --steps +5", "2"),
    ("plain --steps", "2"),
    ("plain --steps 5 7", "2"),
    ("plain --step 5", "2"),
    ("check --steps 5", "2"),
];

#[test]
fn other_words_are_refused(rt: HostRuntime) -> Result<(), Fail> {
    for (words, wanted) in WORDS {
        let told = transcript(rt.alloc(), words, "wait\n")?;
        assert_eq!(rt; told.as_str(), wanted, "at {words}");
    }
    Ok(())
}
