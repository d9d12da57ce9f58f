use super::*;

/// What happens to the runs, and the number that is answered: 0 for `Busy`, 100 for `Idle`, 101 for `Faults`, 102 for `NoMain`.
#[derive(Drop)]
enum Step {
    Pin,
    Begin(bool, bool),
    Halt,
    End,
}

fn carried_out(runs: &mut Runs, step: &Step) -> u32 {
    match step {
        Step::Pin => {
            if runs.count() < u32::MAX {
                runs.pin(7).unwrap_or(0)
            } else {
                1_000
            }
        }
        Step::Begin(fault_free, has_main) => {
            if let Stage::Pinned { .. } = runs.stage() {
                match runs.begin(*fault_free, *has_main) {
                    Ok(run) => run,
                    Err(BeginRefusal::Faults) => 101,
                    Err(BeginRefusal::NoMain) => 102,
                }
            } else {
                1_001
            }
        }
        Step::Halt => runs.halt().unwrap_or(100),
        Step::End => {
            if runs.stage() != Stage::NoRun {
                runs.end();
            }
            runs.count()
        }
    }
}

#[test]
fn one_run_at_a_time(rt: HostRuntime) {
    let mut runs = Runs::new();
    let steps = [
        (Step::Halt, 100),
        (Step::Pin, 1),
        (Step::Pin, 0),
        (Step::Halt, 1),
        (Step::Begin(true, true), 1),
        (Step::Pin, 0),
        (Step::Halt, 1),
        (Step::End, 1),
        (Step::Halt, 100),
        (Step::Pin, 2),
        (Step::Begin(false, false), 101),
        (Step::Halt, 100),
        (Step::Pin, 3),
        (Step::Begin(true, false), 102),
        (Step::Pin, 4),
        (Step::End, 4),
        (Step::Halt, 100),
    ];
    for (place, (step, answer)) in steps.iter().enumerate() {
        assert_eq!(rt; carried_out(&mut runs, step), *answer, "step {place}");
    }
    assert_eq!(rt; runs.stage(), Stage::NoRun);
}
