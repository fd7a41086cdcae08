use crate::input::print_roll;

#[test]
fn the_roll_of_the_input_is_printed(rt: HostRuntime) -> anyhow::Result<()> {
    let input: &[u8] = &[1, 2, 3];
    let mut out = Vec::new(rt.alloc());
    print_roll(rt.alloc(), input, &mut out, |bytes| {
        let count = bytes.len();
        Ok(format!(in rt.alloc(); "{count} bytes\n")?)
    })?;
    assert!(rt; out.as_slice() == b"3 bytes\n".as_slice());
    Ok(())
}
