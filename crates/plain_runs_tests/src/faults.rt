//! Faults, each with its line and its name.

use crate::row::{are_answered, run_as};
use std::test::Fail;

const FAULTS: [(&str, &str); 13] = [
    (
        "алг\nнач\nцел x\nвывод x\nкон",
        "run 1 1\nend 1 fault 4 unset\n",
    ),
    (
        "алг\nнач\nцел таб a[1:3]\nвывод a[1]\nкон",
        "run 1 1\nend 1 fault 4 unset\n",
    ),
    (
        "алг\nнач\nцел таб a[1:3]\nвывод a[4]\nкон",
        "run 1 1\nend 1 fault 4 index\n",
    ),
    (
        "алг\nнач\nцел таб a[1:3]\na[0] := 1\nкон",
        "run 1 1\nend 1 fault 4 index\n",
    ),
    (
        "алг\nнач\nвывод 2147483647 + 1 - 1\nкон",
        "run 1 1\nend 1 fault 3 range\n",
    ),
    (
        "алг\nнач\nвывод mod(-7, 3), нс, div(-7, 3), нс, 0 ** 0\nвывод div(1, 0)\nкон",
        "run 1 1\nout 1 2\nout 1 \\n\nout 1 -3\nout 1 \\n\nout 1 1\nend 1 fault 4 divisor\n",
    ),
    (
        "алг\nнач\nвывод 2 ** 10\nвывод 2 ** -1\nкон",
        "run 1 1\nout 1 1024\nend 1 fault 4 exponent\n",
    ),
    (
        "алг\nнач\nцел i\nнц для i от 1 до 2 шаг 0\nвывод i, нс\nкц\nкон",
        "run 1 1\nend 1 fault 4 step\n",
    ),
    (
        "алг\nнач\nцел n\nn := 0\nцел таб a[1:n - 1]\nкон",
        "run 1 1\nend 1 fault 5 bounds\n",
    ),
    ("алг а\nнач\nа\nкон", "run 1 1\nend 1 fault 3 depth\n"),
    (
        "алг\nнач\nвывод f\nкон\nалг цел f\nнач\nесли нет то знач := 1 все\nкон",
        "run 1 1\nend 1 fault 8 no-value\n",
    ),
    (
        "алг цел главная\nнач\nвывод \"а\"\nкон",
        "run 1 1\nout 1 а\nend 1 fault 4 no-value\n",
    ),
    (
        "алг\nнач\nвывод 1, div(1, 0), 2\nкон",
        "run 1 1\nout 1 1\nend 1 fault 3 divisor\n",
    ),
];

#[test]
fn faults_end_a_run_on_their_line(rt: HostRuntime) -> Result<(), Fail> {
    run_as(&rt, rt.alloc(), &FAULTS)
}

const INPUTS: [(&str, &str, &str); 2] = [
    (
        "алг\nнач\nцел x\nввод x\nвывод x * x\nкон",
        "run -5\nrun да\nrun\nrun 2 3",
        "run 1 1\nout 1 25\nend 1 done\nrun 2 1\nend 2 fault 4 input-type\nrun 3 1\nend 3 fault 4 no-input\nrun 4 1\nout 4 4\nend 4 done\n",
    ),
    (
        "алг\nнач\nлог b\nцел x\nввод b, x\nвывод b, не b, x\nкон",
        "run да 7\nrun нет\nrun 7 да",
        "run 1 1\nout 1 да\nout 1 нет\nout 1 7\nend 1 done\nrun 2 1\nend 2 fault 5 no-input\nrun 3 1\nend 3 fault 5 input-type\n",
    ),
];

#[test]
fn inputs_are_taken_in_order(rt: HostRuntime) -> Result<(), Fail> {
    are_answered(&rt, rt.alloc(), &INPUTS)
}
