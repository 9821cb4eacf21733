//! The text of slots and of groups.
use script::groups::Group;
use script::ranges::Ranges;
use std::fmt::{self, Write};
use std::test::Fail;

#[test]
fn slots(rt: HostRuntime) -> Result<(), Fail> {
    let row = [true, true, true, false, false, false, false, true];
    let ranges = Ranges(&row);
    assert!(rt; format!(in rt.alloc(); "{ranges}")?.as_str() == "0-3,7-8");
    let part = Ranges(&row[3..7]);
    assert!(rt; format!(in rt.alloc(); "{part}")?.as_str() == "-");
    Ok(())
}

#[test]
fn groups(rt: HostRuntime) -> Result<(), Fail> {
    let row = [false, true, true, false, true];
    let group = Group(&row);
    assert!(rt; format!(in rt.alloc(); "{group}")?.as_str() == "1,2,4");
    let nobody = Group(&row[0..1]);
    assert!(rt; format!(in rt.alloc(); "{nobody}")?.as_str() == "");
    Ok(())
}

// A writer that takes no byte.
#[derive(Drop)]
struct Refuses;

impl Write for Refuses {
    fn write_str(&mut self, _text: &str) -> fmt::Result {
        Err(fmt::Error)
    }
}

#[test]
fn nobody_is_not_written(rt: HostRuntime) {
    let mut writer = Refuses;
    assert!(rt; write!(writer, "{}", Group(&[false])).is_ok());
    assert!(rt; write!(writer, "{}", Group(&[true])).is_err());
}
