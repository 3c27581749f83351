use review::report::print_report;
use std::alloc::{AllocError, Global};
use std::test::Fail;

// Two threads of so many steps, one after another, without locks.
fn threads(heap: Global, lefts: u16, rights: u16) -> Result<Vec<u8>, AllocError> {
    let mut file = Vec::new(heap);
    add_thread(&mut file, 0x10, lefts)?;
    add_thread(&mut file, 0x11, rights)?;
    Ok(file)
}

fn add_thread(file: &mut Vec<u8>, command: u8, steps: u16) -> Result<(), AllocError> {
    let [high, low] = steps.saturating_add(1).to_be_bytes();
    file.extend_from_slice(&[command, high, low])?;
    for _ in 0..steps {
        file.push(0x01)?;
    }
    file.push(0x00)?;
    Ok(())
}

fn add_pair(file: &mut Vec<u8>, left: u16, right: u16) -> Result<(), AllocError> {
    let [a, b] = left.to_be_bytes();
    let [c, d] = right.to_be_bytes();
    file.extend_from_slice(&[0x12, a, b, c, d])
}

// Threads without locks reach each pair, by all moves before it.
#[test]
fn each_of_many_pairs_has_its_line(rt: HostRuntime) -> Result<(), Fail> {
    let heap = rt.alloc();
    let mut file = threads(heap, 89, 71)?;
    for left in 0..90 {
        for right in 0..72 {
            add_pair(&mut file, left, right)?;
        }
    }
    file.push(0x1f)?;
    let mut printed = Vec::new(heap);
    print_report(heap, file.as_slice(), &mut printed)?;
    assert!(rt; printed.len() > 65_536);
    let text = String::from_utf8(printed)?;
    let mut lines = text.lines();
    for left in 0u16..90 {
        for right in 0u16..72 {
            let line = lines.next().unwrap_or("none");
            let start = format!(in heap; "{left} {right} reached {}:", left + right)?;
            assert!(rt; line.starts_with(start.as_str()), "{start} is not {line}");
            assert_eq!(rt; line.matches(" L0").count(), usize::from(left), "{start}");
            assert_eq!(rt; line.matches(" R0").count(), usize::from(right), "{start}");
        }
    }
    assert_eq!(rt; lines.next(), None);
    Ok(())
}

#[test]
fn a_long_schedule_is_printed_whole(rt: HostRuntime) -> Result<(), Fail> {
    let heap = rt.alloc();
    let mut file = threads(heap, 500, 501)?;
    add_pair(&mut file, 500, 501)?;
    file.push(0x1f)?;
    let mut printed = Vec::new(heap);
    print_report(heap, file.as_slice(), &mut printed)?;
    let text = String::from_utf8(printed)?;
    assert!(rt; text.as_str().starts_with("500 501 reached 1001: "));
    assert_eq!(rt; text.as_str().matches(" L0").count(), 500);
    assert_eq!(rt; text.as_str().matches(" R0").count(), 501);
    assert_eq!(rt; text.len(), "500 501 reached 1001:\n".len() + 3 * 1001);
    Ok(())
}
