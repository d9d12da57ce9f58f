//! Steps, depth and table elements.

use crate::row::{run_as, run_within};
use std::test::Fail;

const COUNTED: &str = "алг\nнач\nцел i\nнц для i от 2147483646 до 2147483647\nвывод i, нс\nкц\nкон";

const COUNTED_OUT: &str =
    "run 1 1\nout 1 2147483646\nout 1 \\n\nout 1 2147483647\nout 1 \\n\nend 1 done\n";

const CALLING: &str =
    "алг\nнач\nвывод \"а\", 1 + f(2), f(3)\nкон\nалг цел f(арг цел x)\nнач\nзнач := x\nкон";

const STEPS: [(&str, &str, &str); 10] = [
    ("plain", COUNTED, COUNTED_OUT),
    ("plain --steps 7", COUNTED, COUNTED_OUT),
    (
        "plain --steps 6",
        COUNTED,
        "run 1 1\nout 1 2147483646\nout 1 \\n\nout 1 2147483647\nout 1 \\n\nend 1 steps\n",
    ),
    (
        "plain --steps 5",
        COUNTED,
        "run 1 1\nout 1 2147483646\nout 1 \\n\nend 1 steps\n",
    ),
    (
        "plain --steps 1000",
        "алг\nнач\nнц пока да\nкц\nкон",
        "run 1 1\nend 1 steps\n",
    ),
    (
        "plain --steps 1",
        CALLING,
        "run 1 1\nout 1 а\nend 1 steps\n",
    ),
    (
        "plain --steps 2",
        CALLING,
        "run 1 1\nout 1 а\nend 1 steps\n",
    ),
    (
        "plain --steps 4",
        CALLING,
        "run 1 1\nout 1 а\nout 1 3\nend 1 steps\n",
    ),
    (
        "plain --steps 5",
        CALLING,
        "run 1 1\nout 1 а\nout 1 3\nout 1 3\nend 1 done\n",
    ),
    (
        "plain --steps 100000000",
        "алг\nнач\nнц; выход; кц\nкон",
        "run 1 1\nend 1 done\n",
    ),
];

#[test]
fn a_run_takes_no_more_steps_than_it_may(rt: HostRuntime) -> Result<(), Fail> {
    run_within(&rt, rt.alloc(), &STEPS)
}

const DEPTHS: [(&str, &str); 2] = [
    (
        "алг\nнач\nвывод глубина(999)\nкон\nалг цел глубина(арг цел n)\nнач\nесли n = 1 то знач := 1 иначе знач := 1 + глубина(n - 1) все\nкон",
        "run 1 1\nout 1 999\nend 1 done\n",
    ),
    (
        "алг\nнач\nвывод глубина(1000)\nкон\nалг цел глубина(арг цел n)\nнач\nесли n = 1 то знач := 1 иначе знач := 1 + глубина(n - 1) все\nкон",
        "run 1 1\nend 1 fault 7 depth\n",
    ),
];

#[test]
fn a_thousand_algorithms_may_be_entered(rt: HostRuntime) -> Result<(), Fail> {
    run_as(&rt, rt.alloc(), &DEPTHS)
}

const ELEMENTS: [(&str, &str); 4] = [
    (
        "алг\nнач\nцел таб a[1:1000000]\na[1000000] := 7\nвывод a[1000000]\nкон",
        "run 1 1\nout 1 7\nend 1 done\n",
    ),
    (
        "алг\nнач\nцел таб a[1:1000001]\nкон",
        "run 1 1\nend 1 fault 3 elements\n",
    ),
    (
        "алг\nнач\nцел таб a[1:1000000]\nцел таб b[5:5]\nкон",
        "run 1 1\nend 1 fault 4 elements\n",
    ),
    (
        "алг\nнач\nсделать\nсделать\nцел таб a[1:1000000]\nвывод \"а\"\nсделать\nкон\nалг сделать\nнач\nцел таб b[1:1000, 1:1000]\nкон",
        "run 1 1\nout 1 а\nend 1 fault 11 elements\n",
    ),
];

#[test]
fn a_million_elements_may_be_there(rt: HostRuntime) -> Result<(), Fail> {
    run_as(&rt, rt.alloc(), &ELEMENTS)
}
