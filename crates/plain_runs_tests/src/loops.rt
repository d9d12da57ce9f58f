//! Loops and choices.

use crate::row::run_as;
use std::test::Fail;

const TURNS: [(&str, &str); 6] = [
    (
        "алг\nнач\nнц 0 раз; вывод \"а\"; кц\nнц 1 раз; вывод \"б\"; кц\nнц 3 раз; вывод \"в\"; кц\nнц -1 раз; вывод \"г\"; кц\nкон",
        "run 1 1\nout 1 б\nout 1 в\nout 1 в\nout 1 в\nend 1 done\n",
    ),
    (
        "алг\nнач\nцел i\ni := 0\nнц пока i < 0; вывод \"а\"; кц\nнц пока i < 1; вывод \"б\"; i := i + 1; кц\nнц пока i < 4; вывод i; i := i + 1; кц\nкон",
        "run 1 1\nout 1 б\nout 1 1\nout 1 2\nout 1 3\nend 1 done\n",
    ),
    (
        "алг\nнач\nцел i\nнц для i от 1 до 0; вывод \"а\"; кц\nнц для i от 5 до 5; вывод i; кц\nнц для i от 1 до 6 шаг 2; вывод i; кц\nнц для i от 3 до 2 шаг -1; вывод i; кц\nвывод i\nкон",
        "run 1 1\nout 1 5\nout 1 1\nout 1 3\nout 1 5\nout 1 3\nout 1 2\nout 1 2\nend 1 done\n",
    ),
    (
        "алг\nнач\nцел i, n\nn := 3\nнц n раз; n := 1; вывод \"а\"; кц\nнц для i от 1 до n + 1; n := 5; вывод i; кц\nкон",
        "run 1 1\nout 1 а\nout 1 а\nout 1 а\nout 1 1\nout 1 2\nend 1 done\n",
    ),
    (
        "алг\nнач\nцел i\ni := 0\nнц; i := i + 1; вывод i; кц при i >= 1\nнц; i := i + 1; вывод i; кц при i >= 3\nнц; i := i + 1; если i = 5 то выход все; вывод i; кц\nкон",
        "run 1 1\nout 1 1\nout 1 2\nout 1 3\nout 1 4\nend 1 done\n",
    ),
    (
        "алг\nнач\nцел i\nнц для i от 1 до 3\nнц для i от 7 до 8; кц\nвывод i\nкц\nвывод i\nкон",
        "run 1 1\nout 1 8\nout 1 8\nout 1 8\nout 1 8\nend 1 done\n",
    ),
];

#[test]
fn loops_make_their_turns(rt: HostRuntime) -> Result<(), Fail> {
    run_as(&rt, rt.alloc(), &TURNS)
}

const LEAVES: [(&str, &str); 5] = [
    (
        "алг\nнач\nнц 3 раз; вывод \"а\"; выход; вывод \"б\"; кц\nнц пока да; вывод \"в\"; выход; кц\nнц; вывод \"г\"; выход; кц\nнц; вывод \"д\"; выход; кц при нет\nкон",
        "run 1 1\nout 1 а\nout 1 в\nout 1 г\nout 1 д\nend 1 done\n",
    ),
    (
        "алг\nнач\nцел i\nнц для i от 1 до 9; если i = 4 то выход все; кц\nвывод i\nкон",
        "run 1 1\nout 1 4\nend 1 done\n",
    ),
    (
        "алг\nнач\nцел i\nнц для i от 1 до 2\nнц; выход; кц\nвывод i\nкц\nкон",
        "run 1 1\nout 1 1\nout 1 2\nend 1 done\n",
    ),
    (
        "алг\nнач\nвнутри\nвывод \"а\"\nкон\nалг внутри\nнач\nвывод \"б\"\nвыход\nвывод \"в\"\nкон",
        "run 1 1\nout 1 б\nout 1 а\nend 1 done\n",
    ),
    (
        "алг\nнач\nвывод \"а\"\nвнутри\nвывод \"б\"\nкон\nалг внутри\nнадо нет\nнач\nнц; вывод \"в\"; стоп; кц\nкон",
        "run 1 1\nout 1 а\nout 1 в\nend 1 quit\n",
    ),
];

#[test]
fn loops_and_runs_are_left(rt: HostRuntime) -> Result<(), Fail> {
    run_as(&rt, rt.alloc(), &LEAVES)
}

const CHOICES: [(&str, &str); 4] = [
    (
        "алг\nнач\nцел i\nнц для i от 1 до 3\nвыбор\nпри i = 1: вывод \"а\"\nпри i <= 2: вывод \"б\"\nиначе вывод \"в\"\nвсе\nкц\nкон",
        "run 1 1\nout 1 а\nout 1 б\nout 1 в\nend 1 done\n",
    ),
    (
        "алг\nнач\nвыбор\nпри нет: вывод \"а\"\nвсе\nвыбор\nпри да: вывод \"б\"\nпри 1 = div(1, 0): вывод \"в\"\nвсе\nкон",
        "run 1 1\nout 1 б\nend 1 done\n",
    ),
    (
        "алг\nнач\nесли да то вывод \"а\" иначе вывод \"б\" все\nесли нет то вывод \"в\" иначе вывод \"г\" все\nесли нет то вывод \"д\" все\nкон",
        "run 1 1\nout 1 а\nout 1 г\nend 1 done\n",
    ),
    (
        "алг\nнач\nесли нет и div(1, 0) = 1 то вывод \"а\" все\nесли да или div(1, 0) = 1 то вывод \"б\" все\nесли да и div(1, 0) = 1 то вывод \"в\" все\nкон",
        "run 1 1\nout 1 б\nend 1 fault 5 divisor\n",
    ),
];

#[test]
fn choices_take_the_first_way_that_holds(rt: HostRuntime) -> Result<(), Fail> {
    run_as(&rt, rt.alloc(), &CHOICES)
}
