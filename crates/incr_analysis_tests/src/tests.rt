ghost use Rattle.std.specs.Prelude.{[], ◌∷◌, if◌then◌else◌};

use incr_analysis::{Analysed, Analyser, Analysis, NeverStop, Stop};
use km_base::{Memory, Steps, Uncounted};
use kumir_tree::{Line, Lines};
use sqlite_items::Items;
use std::alloc::Global;
use std::sync::Arc;
use std::test::Fail;
use text_versions::Text;
use type_check::CleanRefusal;

// Tells of a version once.
#[derive(Drop)]
struct Once {
    version: u32,
    told: bool,
}

impl Stop for Once {
    ghost seen = { λ s. if s.told then s.version ∷ [] else [] };

    ghost name = { λ s. [] };

    #[tactic(auto, using(crate::proofs::Tells::told_once))]
    fn newer(&mut self) -> Option<u32> {
        if self.told {
            return None;
        }
        self.told = true;
        Some(self.version)
    }
}

// Nothing is built here but lines within their limits, so what fails is memory.
fn text_of(alloc: Global, text: &str) -> Result<Arc<Text>, Memory> {
    let mut lines: Lines = Items::new(alloc);
    for line in text.lines() {
        match Line::of_text(alloc, line) {
            Ok(line) => lines.push(line)?,
            Err(_) => return Err(Memory),
        }
    }
    match Text::from_lines(alloc, lines) {
        Ok(text) => Ok(text.shared(alloc)?),
        Err(_) => Err(Memory),
    }
}

// What comes of the analysis of a version of a text.
fn analysis_of<S: Stop>(
    alloc: Global,
    analyser: &mut Analyser,
    version: u32,
    text: &str,
    stop: &mut S,
) -> Result<Analysis, Memory> {
    let mut reads = Steps::<Uncounted>::new();
    let mut checks = Steps::<Uncounted>::new();
    let text = text_of(alloc, text)?;
    analyser.analyse(version, text, stop, &mut reads, &mut checks)
}

// Whether it is a program that can be run.
fn is_runnable(analysed: &Analysed) -> bool {
    if analysed.margin().marks().is_empty() {
        analysed.has_main()
    } else {
        false
    }
}

// How many units the program has, with its prelude; where it has faults, no unit and the marks of its margin.
fn counts(alloc: Global, analysed: &Analysed) -> Result<(usize, usize), Memory> {
    match analysed.clean(alloc) {
        Ok(clean) => Ok((clean.units().len(), 0)),
        Err(CleanRefusal::Faults(margin)) => Ok((0, margin.marks().len())),
        Err(CleanRefusal::Memory) => Err(Memory),
    }
}

// Texts, how many units or marks they have, and whether they can be run.
const PROGRAMS: [(&str, (usize, usize), bool); 7] = [
    ("", (1, 0), false),
    ("алг\nнач\nкон", (2, 0), true),
    ("использовать Робот\nалг\nнач\nвлево\nкон", (2, 0), true),
    ("алг a(арг цел x)\nнач\nкон\nалг b\nнач\nкон", (3, 0), false),
    ("алг a\nнач\nкон\nалг b(рез лог y)\nнач\nкон", (3, 0), true),
    ("алг\nнач\nx := 1\nкон", (0, 1), false),
    ("алг\nнач\nцел x, x\ny := 1\nкон", (0, 2), false),
];

#[test]
fn an_analysis_keeps_its_program(rt: HostRuntime) -> Result<(), Fail> {
    let alloc = rt.alloc();
    let mut analyser = Analyser::new(alloc)?;
    for (text, wanted, runnable) in PROGRAMS {
        match analysis_of(alloc, &mut analyser, 7, text, &mut NeverStop)? {
            Analysis::Done(analysed) => {
                assert_eq!(rt; analysed.version(), 7);
                assert_eq!(rt; analysed.text().count() as usize, text.lines().count());
                assert_eq!(rt; counts(alloc, &analysed)?, wanted, "{text}");
                assert_eq!(rt; is_runnable(&analysed), runnable, "{text}");
            }
            Analysis::Skipped(_) => assert!(rt; false, "{text}"),
        }
    }
    Ok(())
}

// The version for which the analysis was broken off; 0 where it was done.
fn skipped_for(analysis: Analysis) -> u32 {
    match analysis {
        Analysis::Done(_) => 0,
        Analysis::Skipped(newer) => newer,
    }
}

#[test]
fn a_newer_version_breaks_an_analysis_off(rt: HostRuntime) -> Result<(), Fail> {
    let alloc = rt.alloc();
    let mut analyser = Analyser::new(alloc)?;
    for (version, newer) in [(3, 5), (4, 5), (5, 0), (6, 0)] {
        let mut stop = Once {
            version: 5,
            told: false,
        };
        let analysis = analysis_of(alloc, &mut analyser, version, "алг\nнач\nкон", &mut stop)?;
        assert_eq!(rt; skipped_for(analysis), newer);
    }
    Ok(())
}
