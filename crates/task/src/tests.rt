use crate::fault::{TextFault, Wrong};
use crate::place::Task;
use std::test::Fail;

#[test]
fn reads_one_task_after_another(rt: HostRuntime) -> Result<(), Fail> {
    let mut task = Task::new(rt.alloc())?;
    task.read(
        b"left 02 00 02 01 03 01 00\nright 02 01 02 00 03 00 00\npair 3 1\nmoves L0 L0 L0 R0\n",
    )?;
    assert!(rt; task.left() == [2, 0, 2, 1, 3, 1, 0].as_slice());
    assert!(rt; task.right() == [2, 1, 2, 0, 3, 0, 0].as_slice());
    assert_eq!(rt; task.left_location(), 3);
    assert!(rt; task.moves() == [0, 0, 0, 256].as_slice());
    task.read(b"left fF\nright\npair 0 4294967295\nmoves L255 R65279")?;
    assert!(rt; task.left() == [255].as_slice());
    assert!(rt; task.right().is_empty());
    assert_eq!(rt; task.right_location(), 4294967295);
    assert!(rt; task.moves() == [255, 65535].as_slice());
    Ok(())
}

#[test]
fn refuses_an_odd_digit_and_stays(rt: HostRuntime) -> Result<(), Fail> {
    let mut task = Task::new(rt.alloc())?;
    task.read(b"left 07\nright\npair 1 2\nmoves\n")?;
    let line = 2;
    let wrong = Wrong::Byte;
    assert_eq!(rt;
        task.read(b"left 08\nright 02 0\npair 3 1\nmoves\n"),
        Err(TextFault { line, wrong })
    );
    assert!(rt; task.left() == [7].as_slice());
    Ok(())
}

#[test]
fn refuses_a_text_that_ends_early(rt: HostRuntime) -> Result<(), Fail> {
    let mut task = Task::new(rt.alloc())?;
    let line = 3;
    let wrong = Wrong::Missing;
    assert_eq!(rt; task.read(b"left\nright\n"), Err(TextFault { line, wrong }));
    Ok(())
}

#[test]
fn refuses_what_follows_the_moves(rt: HostRuntime) -> Result<(), Fail> {
    let mut task = Task::new(rt.alloc())?;
    let line = 5;
    let wrong = Wrong::Surplus;
    assert_eq!(rt;
        task.read(b"left\nright\npair 3 1\nmoves\n\n"),
        Err(TextFault { line, wrong })
    );
    Ok(())
}

#[test]
fn a_fault_prints_its_line_and_its_phrase(rt: HostRuntime) -> Result<(), Fail> {
    let line = 2;
    let wrong = Wrong::Byte;
    let printed = format!(in rt.alloc(); "{}", TextFault { line, wrong })?;
    assert_eq!(rt;
        printed.as_str(),
        "line 2: a byte is not two hexadecimal digits"
    );
    Ok(())
}
