use crate::Pen;
use performer_kit::{PenCommand, Segment};

const FAR: i32 = i32::MIN;

#[test]
fn segments_are_drawn_with_the_pen_down(rt: HostRuntime) {
    let steps = [
        (PenCommand::By { dx: 3, dy: 4 }, None),
        (PenCommand::To { x: 0, y: 0 }, None),
        (PenCommand::Lower, None),
        (PenCommand::By { dx: 1, dy: -2 }, Some((0, 0, 1, -2))),
        (PenCommand::By { dx: 1, dy: -2 }, Some((1, -2, 2, -4))),
        (PenCommand::To { x: 2, y: -4 }, None),
        (PenCommand::By { dx: 0, dy: 0 }, None),
        (PenCommand::By { dx: 0, dy: 1 }, Some((2, -4, 2, -3))),
        (PenCommand::Raise, None),
        (PenCommand::To { x: 7, y: 7 }, None),
        (PenCommand::Lower, None),
        (
            PenCommand::To { x: FAR, y: FAR },
            Some((7, 7, -2147483648, -2147483648)),
        ),
        (
            PenCommand::By {
                dx: FAR,
                dy: 2147483647,
            },
            Some((-2147483648, -2147483648, -4294967296, -1)),
        ),
    ];
    let mut pen = Pen::new();
    assert!(rt; pen.x == 0 && pen.y == 0 && !pen.down && pen.moves == 0);
    let mut count = 0u32;
    for (command, places) in steps {
        let want = match places {
            Some((x1, y1, x2, y2)) => Some(Segment { x1, y1, x2, y2 }),
            None => None,
        };
        assert!(rt; pen.moves < 4_294_967_295);
        assert_eq!(rt; pen.act(command), want, "{command:?}");
        count = count.saturating_add(1);
        assert_eq!(rt; pen.moves, count);
    }
    assert!(rt; pen.x == -4294967296 && pen.y == -1 && pen.down);
}
