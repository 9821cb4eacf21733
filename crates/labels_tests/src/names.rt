//! Names: which bytes spell one, and which names are the same.
use labels::Label;
use labels::names::Name;
use std::test::Fail;

// The name that a test is about.
pub(crate) fn named(bytes: &[u8]) -> Result<Name, Fail> {
    Name::new(bytes).ok_or_else(|| Fail::new("no name"))
}

#[test]
fn one_to_eight_letters(rt: HostRuntime) -> Result<(), Fail> {
    for bytes in [&b"a"[..], &b"camera"[..], &b"eighteen"[..], &b"z"[..]] {
        assert!(rt; named(bytes)?.as_bytes() == bytes);
    }
    for bytes in [
        &b""[..],
        &b"ninechars"[..],
        &b"Camera"[..],
        &b"port2"[..],
        &b"a b"[..],
        &b"{"[..],
    ] {
        assert!(rt; Name::new(bytes).is_none());
    }
    Ok(())
}

#[test]
fn the_same_spelling(rt: HostRuntime) -> Result<(), Fail> {
    let cam = named(b"cam")?;
    let camera = named(b"camera")?;
    assert!(rt; cam.is_same(&named(b"cam")?));
    assert!(rt; !cam.is_same(&camera));
    assert!(rt; !camera.is_same(&cam));
    assert_ne!(rt; cam, camera);
    Ok(())
}

#[test]
fn shown_by_its_letters(rt: HostRuntime) -> Result<(), Fail> {
    let camera = named(b"camera")?;
    assert!(rt; format!(in rt.alloc(); "{camera}")?.as_str() == "camera");
    Ok(())
}
