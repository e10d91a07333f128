use base::fault::Fault;
use base::geometry::Geometry;
use base::key::Key;
use base::row::Row;
use std::alloc::Global;
use std::fmt::Display;
use std::process::Abort;
use std::test::Fail;

fn assert_text(
    rt: &impl Abort,
    alloc: Global,
    shown: &impl Display,
    want: &str,
) -> Result<(), Fail> {
    let text = format!(in alloc; "{shown}")?;
    assert!(rt; text.as_str() == want);
    Ok(())
}

#[test]
fn faults_are_reported_by_name_and_by_sentence(rt: HostRuntime) -> Result<(), Fail> {
    let fault = Fault::Damaged(3);
    assert_text(&rt, rt.alloc(), &fault.text(), "Damaged 3")?;
    assert_text(
        &rt,
        rt.alloc(),
        &fault,
        "the image is damaged at place or slot 3: take a copy of it from before",
    )
}

#[test]
fn keys_and_rows_are_printed(rt: HostRuntime) -> Result<(), Fail> {
    let key = Key { table: 1, key: 7 };
    let row = Row::new(&[97, 2])?;
    let empty = Row::new(&[])?;
    let line = format!(in rt.alloc(); "{key} {row} {empty}")?;
    assert!(rt; line.as_str() == "1 7 6102 -");
    Ok(())
}

#[test]
fn default_geometry_has_a_thousand_slots(rt: HostRuntime) -> Result<(), Fail> {
    let geometry = Geometry::default();
    assert!(rt; (geometry.slots(), geometry.places(), geometry.window()) == (1_024, 4, 64));
    Ok(())
}
