use crate::everything::Everything;
use bounds::problem::Bounds;
use disc::problem::Disc;
use format::command::Header;
use format::line::LineBuffer;
use listing::answers::AnswerLine;
use listing::line::{first_line, obey_line};
use listing::obeying::Outcome;
use listing::planes::plane_of;
use listing::text::Printer;
use lptype::problem::Problem;
use parish::layer::Parish;
use register::working::Working;
use rows::positions::Positions;
use rows::row::Constraint;
use std::alloc::{AllocError, Global};
use std::process::Abort;
use std::test::Fail;
use walk::shuffling::shuffle;

// Puts the first line of some bytes into an empty buffer, and gives the bytes after it.
fn after_line<'a>(line: &mut LineBuffer, bytes: &'a [u8]) -> &'a [u8] {
    line.fill(bytes)
        .and_then(|taken| bytes.get(taken..))
        .unwrap_or(&[])
}

// The listing of the lines after the first of a short file. The program's loop once more: a test cannot call the program,
// and a public function over readers and writers could promise nothing.
fn later_lines<P: Problem + Drop>(
    heap: Global,
    problem: P,
    lines: &[u8],
) -> Result<String, AllocError>
where
    P::Answer: AnswerLine + Drop,
{
    let mut out = String::new(heap);
    let mut register = Working::new(problem);
    let mut line = LineBuffer::new();
    let mut rest = lines;
    for number in 2..1000u64 {
        if rest.is_empty() {
            break;
        }
        line.clear();
        rest = after_line(&mut line, rest);
        let printer = Printer::new(heap, number);
        let text = match obey_line(&mut register, &line) {
            Ok(Outcome::Settle) => {
                let settled = register.settle();
                let text = printer.settlement(&settled)?;
                register = settled.reopen();
                text
            }
            outcome => printer.report(outcome)?,
        };
        out.push_str(text.as_str())?;
    }
    Ok(out)
}

// The listing of a short file.
fn listing_of(heap: Global, file: &[u8]) -> Result<String, AllocError> {
    if file.is_empty() {
        return Ok(String::new(heap));
    }
    let mut line = LineBuffer::new();
    let lines = after_line(&mut line, file);
    let printer = Printer::new(heap, 1);
    match first_line(&line) {
        Ok(Header::Disc) => later_lines(heap, Disc, lines),
        Ok(Header::Plane { p, q }) => match plane_of(p, q) {
            Ok(plane) => later_lines(heap, plane, lines),
            Err(refusal) => printer.report(Err(refusal)),
        },
        Ok(Header::Bounds) => later_lines(heap, Bounds, lines),
        Err(refusal) => printer.report(Err(refusal)),
    }
}

fn lists(rt: &impl Abort, heap: Global, file: &[u8], expected: &str) -> Result<(), Fail> {
    let text = listing_of(heap, file)?;
    assert!(rt; text.as_str() == expected);
    Ok(())
}

#[test]
fn rows_are_refused(rt: HostRuntime) -> Result<(), Fail> {
    let heap = rt.alloc();
    lists(
        &rt,
        heap,
        b"box\nrow,10000,-10000,0,16\nrow,10001,0,0,1\nrow,0,-10001,0,1\nrow,0,0,1,1\n",
        "refused,3,1\nrefused,4,1\nrefused,5,1\n",
    )?;
    lists(
        &rt,
        heap,
        b"box\nrow,9999999999,0,0,17\nrow,2147483648,0,0,0\nrow,4294967296,0,0,1",
        "refused,2,1\nrefused,3,1\nrefused,4,1\n",
    )?;
    lists(
        &rt,
        heap,
        b"box\nrow,0,0,0,0\nrow,0,0,0,17\nrow,0,0,0,-1\nrow,0,0,0,257\nrow,0,0,0,9999999999\n",
        "refused,2,2\nrefused,3,2\nrefused,4,2\nrefused,5,2\nrefused,6,2\n",
    )
}

#[test]
fn positions_are_refused(rt: HostRuntime) -> Result<(), Fail> {
    let heap = rt.alloc();
    lists(
        &rt,
        heap,
        b"box\nrow,0,0,0,1\nstrike,1\nstrike,-1\nstrike,9999999999\nrestore,1\nrestore,0\nstrike,0\nstrike,0\nrestore,0\ncheck,0\n",
        "refused,3,4\nrefused,4,4\nrefused,5,4\nrefused,6,4\nrefused,7,6\nrefused,9,5\npasses,11\n",
    )
}

#[test]
fn lists_are_refused(rt: HostRuntime) -> Result<(), Fail> {
    let heap = rt.alloc();
    lists(
        &rt,
        heap,
        b"box\nrow,0,0,0,1\nrow,5,5,0,1\nrow,1,1,0,1\nstrike,2\ncheck,0,1,2,3,4,5,6,7,9,8\ncheck,0,1,2,3,4,5,6,7\ncheck,1,0\ncheck,0,0\n",
        "refused,6,7\nrefused,7,4\nrefused,8,8\nrefused,9,8\n",
    )?;
    lists(
        &rt,
        heap,
        b"box\nrow,0,0,0,1\nrow,5,5,0,1\nrow,1,1,0,1\nstrike,2\ncheck,0,2\ncheck,0\nrestore,2\ncheck,0,1,2\ncheck,0,1\n",
        "refused,6,9\nrefused,7,11\nrefused,9,10\npasses,10\n",
    )
}

#[test]
fn lines_are_refused(rt: HostRuntime) -> Result<(), Fail> {
    let heap = rt.alloc();
    lists(&rt, heap, b"", "")?;
    lists(&rt, heap, b"box", "")?;
    lists(&rt, heap, b"box,", "refused,1,14\n")?;
    lists(&rt, heap, b"\nbox\n", "refused,1,12\n")?;
    lists(&rt, heap, b"box\r\nrow,0,0,0,1\n", "refused,1,12\n")?;
    lists(
        &rt,
        heap,
        b"box\n\ncheck\ncheck,\nrow,0,0,0\nrow,0,0,0,1\r\nro\xff,1\nrow,-0,0,0,1\nrow,07,0,0,1\nrow,99999999999,0,0,1\nrow,1234567890,0,0,1\nsettled\nsettled,a,b",
        "refused,2,12\nrefused,3,14\nrefused,4,13\nrefused,5,14\nrefused,6,13\nrefused,7,12\nrefused,8,13\nrefused,9,13\nrefused,10,13\nrefused,11,1\nrefused,12,12\nrefused,13,12\n",
    )
}

#[test]
fn long_lines_are_refused(rt: HostRuntime) -> Result<(), Fail> {
    let heap = rt.alloc();
    lists(
        &rt,
        heap,
        b"box\ncheck,1,2,3,4,5,6,7,8,9,1,2,3,4,5,6,7,8,9,1,2,3,4,5,6,7,8,9,1,2,3,4,5,6,7,8,9012\n",
        "refused,2,7\n",
    )?;
    lists(
        &rt,
        heap,
        b"box\ncheck,1,2,3,4,5,6,7,8,9,1,2,3,4,5,6,7,8,9,1,2,3,4,5,6,7,8,9,1,2,3,4,5,6,7,8,90123\n",
        "refused,2,15\n",
    )?;
    lists(
        &rt,
        heap,
        b"box\ncheck,1,2,3,4,5,6,7,8,9,1,2,3,4,5,6,7,8,9,1,2,3,4,5,6,7,8,9,1,2,3,4,5,6,7,8,90123",
        "refused,2,15\n",
    )?;
    lists(
        &rt,
        heap,
        b"xxxxxxxxxxxxxxxxxxxxxxxxxxxxxxxxxxxxxxxxxxxxxxxxxxxxxxxxxxxxxxxxxxxxxxxxxxxxxxxxx\nbox\n",
        "refused,1,15\n",
    )
}

// The 257th row is refused with 3, struck rows among the 256 or not.
#[test]
fn a_full_table_refuses(rt: HostRuntime) -> Result<(), Fail> {
    let mut register = Working::new(Bounds);
    let row = Constraint {
        a: 0,
        b: 0,
        c: 0,
        parish: 1,
    };
    for _ in 0..256 {
        let _ = register.enter(row);
    }
    let _ = register.strike(0);
    match register.enter(row) {
        Ok(()) => Err(Fail::new("taken")),
        Err(refusal) => {
            assert!(rt; u8::from(refusal) == 3);
            Ok(())
        },
    }
}

// Where one rival keeps every row, the empty list is a basis of any rows.
#[test]
fn everything_is_kept(rt: HostRuntime) -> Result<(), Fail> {
    let mut register = Working::new(Everything);
    let _ = register.enter(Constraint {
        a: 3,
        b: 0,
        c: 7,
        parish: 2,
    });
    assert!(rt; register.check(&Positions::empty()).is_ok());
    match Positions::try_from([0].as_slice()) {
        Ok(list) => {
            assert!(rt; register.check(&list).is_err());
            Ok(())
        },
        Err(_) => Err(Fail::new("refused")),
    }
}

// Over two layers of parish 1, a row of parish 2 forces nothing.
#[test]
fn layers_count_one_parish(rt: HostRuntime) -> Result<(), Fail> {
    let Ok(layer) = Parish::new(Bounds, 1) else {
        return Err(Fail::new("refused"));
    };
    let Ok(pile) = Parish::new(layer, 1) else {
        return Err(Fail::new("refused"));
    };
    let mut register = Working::new(pile);
    let _ = register.enter(Constraint {
        a: 0,
        b: 0,
        c: 0,
        parish: 1,
    });
    let _ = register.enter(Constraint {
        a: 3,
        b: 1,
        c: 0,
        parish: 1,
    });
    let _ = register.enter(Constraint {
        a: 9,
        b: 9,
        c: 0,
        parish: 2,
    });
    let Ok(two) = Positions::try_from([0, 1].as_slice()) else {
        return Err(Fail::new("refused"));
    };
    let Ok(three) = Positions::try_from([0, 1, 2].as_slice()) else {
        return Err(Fail::new("refused"));
    };
    assert!(rt; register.check(&two).is_ok());
    assert!(rt; register.check(&three).is_err());
    Ok(())
}

// The box of the rows of one parish, and of the rows that two layers of two parishes both count, of which there are none.
#[test]
fn a_day_over_layers(rt: HostRuntime) -> Result<(), Fail> {
    let heap = rt.alloc();
    let file: &[u8] =
        b"row,0,0,0,1\nrow,9,9,0,2\nrow,3,1,0,1\nsettle\ncheck,0,2\ncheck,0,1\nstrike,2\nshuffle,1\nsettle\nrestore,2\ncheck,0\n";
    let Ok(layer) = Parish::new(Bounds, 1) else {
        return Err(Fail::new("refused"));
    };
    let Ok(same) = Parish::new(layer, 1) else {
        return Err(Fail::new("refused"));
    };
    let counted = later_lines(heap, same, file)?;
    assert!(rt;
        counted.as_str()
            == "basis,5,2,0,2\nbox,5,0,3,0,1\nwalk,5,7,2\npasses,6\nrefused,7,10\nbasis,10,1,0\nbox,10,0,0,0,0\nwalk,10,3,1\nrefused,12,11\n"
    );
    let Ok(layer) = Parish::new(Bounds, 1) else {
        return Err(Fail::new("refused"));
    };
    let Ok(other) = Parish::new(layer, 2) else {
        return Err(Fail::new("refused"));
    };
    let empty = later_lines(heap, other, file)?;
    assert!(rt;
        empty.as_str()
            == "basis,5,0\nempty,5\nwalk,5,3,0\nrefused,6,10\nrefused,7,10\nbasis,10,0\nempty,10\nwalk,10,2,0\nrefused,12,10\n"
    );
    Ok(())
}

// All seven calls, with refusals in between.
#[test]
fn a_whole_day(rt: HostRuntime) -> Result<(), Fail> {
    let heap = rt.alloc();
    lists(
        &rt,
        heap,
        b"box\nsettle\nrow,0,0,0,1\nrow,4,1,0,2\nrow,1,3,0,1\nrow,10001,0,0,1\nsettle\ncheck,0,1,2\nstrike,7\nstrike,2\nstrike,2\ncheck,0,1\nshuffle,-1\nshuffle,7\nsettle\nrestore,2\nsettle\n",
        "basis,2,0\nempty,2\nwalk,2,0,0\nrefused,6,1\nbasis,7,3,0,1,2\nbox,7,0,4,0,3\nwalk,7,9,3\npasses,8\nrefused,9,4\nrefused,11,5\npasses,12\nrefused,13,16\nbasis,15,2,0,1\nbox,15,0,4,0,1\nwalk,15,5,2\nbasis,17,3,0,1,2\nbox,17,0,4,0,3\nwalk,17,5,1\n",
    )?;
    lists(
        &rt,
        heap,
        b"box\nrow,0,0,0,1\nrow,4,1,0,2\nsettle\nrestore,0\nrow,1,3,0,1\ncheck,0,1\nsettle\nsettle\nstrike,1\nsettle\ncheck,1,0\nsettle,\n",
        "basis,4,2,0,1\nbox,4,0,4,0,1\nwalk,4,5,2\nrefused,5,6\nrefused,7,11\nbasis,8,3,0,1,2\nbox,8,0,4,0,3\nwalk,8,6,1\nbasis,9,3,0,1,2\nbox,9,0,4,0,3\nwalk,9,3,0\nbasis,11,2,0,2\nbox,11,0,1,0,3\nwalk,11,5,2\nrefused,12,8\nrefused,13,14\n",
    )
}

// Of four equal points, row 3 comes first after a shuffle with seed 0; the row entered then comes last.
#[test]
fn a_row_after_a_shuffle_is_last(rt: HostRuntime) -> Result<(), Fail> {
    let heap = rt.alloc();
    lists(
        &rt,
        heap,
        b"box\nrow,0,0,0,1\nrow,0,0,0,1\nrow,0,0,0,1\nrow,0,0,0,1\nshuffle,0\nrow,5,5,0,1\nsettle\n",
        "basis,8,2,3,4\nbox,8,0,5,0,5\nwalk,8,11,2\n",
    )
}

#[test]
fn seed_zero_over_four_rows(rt: HostRuntime) {
    let mut order = [0; 256];
    shuffle(&mut order, 4, 0);
    assert!(rt; order[0] == 3 && order[1] == 0 && order[2] == 1 && order[3] == 2);
}

// A full file: 256 scattered points, with strikes and restores between settles; then a row more.
fn full_file(rt: &impl Abort, heap: Global, header: &str) -> Result<String, Fail> {
    let mut file = String::from_str(heap, header)?;
    for k in 0..256 {
        let east = (k % 251 * 7919) % 20_001 - 10_000;
        let north = (k % 241 * 104_729) % 20_001 - 10_000;
        assert!(rt; write!(file, "row,{east},{north},0,1\n").is_ok());
    }
    file.push_str("settle\n")?;
    for k in 0..256 {
        if k % 3 == 0 {
            assert!(rt; write!(file, "strike,{k}\n").is_ok());
        }
    }
    file.push_str("shuffle,2654435769\nsettle\n")?;
    for k in 0..256 {
        if k % 3 == 0 {
            assert!(rt; write!(file, "restore,{k}\n").is_ok());
        }
    }
    file.push_str("settle\nrow,0,0,0,1\n")?;
    Ok(file)
}

#[test]
fn full_tables_settle(rt: HostRuntime) -> Result<(), Fail> {
    let heap = rt.alloc();
    let boxes = full_file(&rt, heap, "box\n")?;
    lists(
        &rt,
        heap,
        boxes.as_bytes(),
        "basis,258,3,0,127,197\nbox,258,-10000,9966,-10000,9919\nwalk,258,1026,14\nbasis,346,4,127,197,241,251\nbox,346,-10000,9966,-10000,9919\nwalk,346,773,15\nbasis,433,4,127,197,241,251\nbox,433,-10000,9966,-10000,9919\nwalk,433,256,0\nrefused,434,3\n",
    )?;
    let discs = full_file(&rt, heap, "disc\n")?;
    lists(
        &rt,
        heap,
        discs.as_bytes(),
        "basis,258,3,0,106,245\ndisc,258,-118913111695,-106260663020,183015253\nwalk,258,913,15\nbasis,346,2,106,245\ndisc,346,-569,-385,2\nwalk,346,710,15\nbasis,433,3,0,106,245\ndisc,433,-118913111695,-106260663020,183015253\nwalk,433,728,2\nrefused,434,3\n",
    )
}

#[test]
fn discs_of_few_points(rt: HostRuntime) -> Result<(), Fail> {
    let heap = rt.alloc();
    lists(
        &rt,
        heap,
        b"disc\nrow,0,0,0,1\nrow,4,0,0,1\nrow,0,2,0,2\nsettle\ncheck,0,1\n",
        "basis,5,2,1,2\ndisc,5,2,1,1\nwalk,5,9,3\nrefused,6,11\n",
    )?;
    lists(
        &rt,
        heap,
        b"disc\nrow,0,0,0,1\nrow,4,0,0,1\nrow,2,3,0,1\nsettle\n",
        "basis,5,3,0,1,2\ndisc,5,12,5,6\nwalk,5,9,3\n",
    )?;
    lists(
        &rt,
        heap,
        b"disc\nrow,0,0,0,1\nrow,2,0,0,1\nrow,2,2,0,1\nrow,0,2,0,1\nsettle\ncheck,1,3\ncheck,0,1,2\ncheck,0,1\n",
        "basis,6,2,0,2\ndisc,6,1,1,1\nwalk,6,10,3\npasses,7\nrefused,8,10\nrefused,9,11\n",
    )?;
    lists(
        &rt,
        heap,
        b"disc\nrow,5,5,0,1\nrow,5,5,0,1\nsettle\n",
        "basis,4,1,0\ndisc,4,5,5,1\nwalk,4,3,1\n",
    )?;
    lists(
        &rt,
        heap,
        b"disc\nsettle\nrow,10001,0,0,1\nrow,0,10000,1,1\nrow,10000,-10000,0,1\nsettle\ndisc\n",
        "basis,2,0\nempty,2\nwalk,2,0,0\nrefused,3,1\nrefused,4,1\nbasis,6,1,0\ndisc,6,10000,-10000,1\nwalk,6,2,1\nrefused,7,12\n",
    )?;
    // two right angles, and the centre of the circle as a row
    lists(
        &rt,
        heap,
        b"disc\nrow,0,0,0,1\nrow,6,0,0,1\nrow,0,8,0,1\nrow,6,8,0,1\nrow,3,4,0,1\nsettle\n",
        "basis,7,2,1,2\ndisc,7,3,4,1\nwalk,7,11,3\n",
    )
}

// The rows of parish 1 alone.
#[test]
fn a_disc_under_a_layer(rt: HostRuntime) -> Result<(), Fail> {
    let heap = rt.alloc();
    let Ok(layer) = Parish::new(Disc, 1) else {
        return Err(Fail::new("refused"));
    };
    let text = later_lines(
        heap,
        layer,
        b"row,0,0,0,1\nrow,4,0,0,1\nrow,0,2,0,2\nsettle\ncheck,0,1\n",
    )?;
    assert!(rt; text.as_str() == "basis,5,2,0,1\ndisc,5,2,0,1\nwalk,5,6,2\npasses,6\n");
    Ok(())
}

// 36 points on one circle, and 20 on one line.
#[test]
fn discs_of_many_points(rt: HostRuntime) -> Result<(), Fail> {
    let heap = rt.alloc();
    let mut circle = String::from_str(heap, "disc\n")?;
    for x in -65..66i32 {
        for y in -65..66i32 {
            if x.wrapping_mul(x).wrapping_add(y.wrapping_mul(y)) == 4225 {
                assert!(rt; write!(circle, "row,{x},{y},0,1\n").is_ok());
            }
        }
    }
    circle.push_str("shuffle,3\nsettle\n")?;
    lists(
        &rt,
        heap,
        circle.as_bytes(),
        "basis,39,3,15,18,25\ndisc,39,0,0,1\nwalk,39,47,4\n",
    )?;
    let mut line = String::from_str(heap, "disc\n")?;
    for k in 0..20 {
        let x = k % 20 * 3 - 30;
        let y = 7 - k % 20 * 2;
        assert!(rt; write!(line, "row,{x},{y},0,1\n").is_ok());
    }
    line.push_str("shuffle,5\nsettle\n")?;
    lists(
        &rt,
        heap,
        line.as_bytes(),
        "basis,23,2,0,19\ndisc,23,-3,-24,2\nwalk,23,73,7\n",
    )
}

#[test]
fn planes_are_refused(rt: HostRuntime) -> Result<(), Fail> {
    let heap = rt.alloc();
    lists(&rt, heap, b"plane,1001,0\nsettle\n", "refused,1,1\n")?;
    lists(&rt, heap, b"plane,0,-1001\n", "refused,1,1\n")?;
    lists(&rt, heap, b"plane,4294967296,0\n", "refused,1,1\n")?;
    lists(&rt, heap, b"plane,1\n", "refused,1,14\n")?;
    lists(&rt, heap, b"plane,1,y\n", "refused,1,13\n")?;
    lists(
        &rt,
        heap,
        b"plane,1000,-1000\nrow,0,0,5,1\nrow,1001,0,0,1\nrow,0,1,1000001,1\nrow,0,1,-1000000,17\nrow,0,1,1000000,1\n",
        "refused,2,1\nrefused,3,1\nrefused,4,1\nrefused,5,2\n",
    )
}

#[test]
fn planes_with_a_point(rt: HostRuntime) -> Result<(), Fail> {
    let heap = rt.alloc();
    lists(
        &rt,
        heap,
        b"plane,1,1\nrow,-1,0,0,1\nrow,0,-1,0,1\nrow,-1,-2,-4,1\nrow,-3,-1,-3,1\nsettle\n",
        "basis,6,2,2,3\nplane,6,2,9,5\nwalk,6,14,4\n",
    )?;
    lists(
        &rt,
        heap,
        b"plane,1,1\nsettle\n",
        "basis,2,0\nplane,2,-1000000,-1000000,1\nwalk,2,0,0\n",
    )?;
    // ties alone decide
    lists(
        &rt,
        heap,
        b"plane,0,0\nrow,-1,-1,0,1\nrow,1,-1,4,1\nsettle\n",
        "basis,4,1,0\nplane,4,-1000000,1000000,1\nwalk,4,3,1\n",
    )?;
    // parallel limits
    lists(
        &rt,
        heap,
        b"plane,1,1\nrow,1,1,5,1\nrow,1,1,3,1\nrow,-1,-1,2,1\nsettle\n",
        "basis,5,1,2\nplane,5,-1000000,999998,1\nwalk,5,6,1\n",
    )?;
    // limits that leave one point
    lists(
        &rt,
        heap,
        b"plane,1,2\nrow,1,0,0,1\nrow,-1,0,0,1\nrow,0,1,0,1\nrow,0,-1,0,1\nrow,1,1,0,1\nsettle\n",
        "basis,7,2,1,3\nplane,7,0,0,1\nwalk,7,11,2\n",
    )?;
    let mut many = String::from_str(heap, "plane,3,-2\n")?;
    for k in 0..60i32 {
        let a = k % 60 * 37 % 2001 - 1000;
        let b = (k % 60 * 91 + 13) % 2001 - 1000;
        let c = k.wrapping_mul(k) % 3600 * 7919 % 900_001 + 1;
        assert!(rt; write!(many, "row,{a},{b},{c},1\n").is_ok());
    }
    many.push_str("shuffle,9\nsettle\n")?;
    lists(
        &rt,
        heap,
        many.as_bytes(),
        "basis,63,2,11,19\nplane,63,-20480530,38428899,217924\nwalk,63,292,15\n",
    )
}

#[test]
fn planes_without_a_point(rt: HostRuntime) -> Result<(), Fail> {
    let heap = rt.alloc();
    lists(
        &rt,
        heap,
        b"plane,1,1\nrow,1,0,0,1\nrow,-1,0,-1,1\nsettle\nrow,0,1,0,1\nsettle\n",
        "basis,4,2,0,1\nnone,4\nwalk,4,5,2\nbasis,6,2,0,1\nnone,6\nwalk,6,3,0\n",
    )?;
    // three limits that only together leave no point
    lists(
        &rt,
        heap,
        b"plane,0,0\nrow,1,0,0,1\nrow,0,1,0,1\nrow,-1,-1,-1,1\nsettle\n",
        "basis,5,3,0,1,2\nnone,5\nwalk,5,9,3\n",
    )?;
    // limits that leave points outside the square only
    lists(
        &rt,
        heap,
        b"plane,1,1\nrow,-1,-1000,-1000000,1\nrow,1,0,-1000000,1\nrow,0,1,-1000000,1\nsettle\n",
        "basis,5,2,0,2\nnone,5\nwalk,5,7,2\n",
    )
}
