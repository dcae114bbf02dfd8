//! Texts of profiles. Where a text finds no memory it is read once more, so with one growth refused all is as with
//! none.
use pos_profile::{Entry, Mistake, Profile, ProfileFault, find_mistake};
use pos_service::{AttachFault, DetachFault, NoMemory};
use std::alloc::Global;
use std::test::Fail;

/// The profile that a text is.
fn read(alloc: Global, text: &str) -> Result<Profile, ProfileFault> {
    match Profile::from_text(alloc, text) {
        Err(ProfileFault::NoMemory) => Profile::from_text(alloc, text),
        outcome => outcome,
    }
}

/// What isn't sound in a text.
fn mistake_in(alloc: Global, text: &str) -> Result<Option<Mistake>, NoMemory> {
    match find_mistake(alloc, text) {
        Err(NoMemory) => find_mistake(alloc, text),
        found => found,
    }
}

/// What a text is answered: how many devices and spares there are, or the refusal.
fn answer(alloc: Global, text: &str) -> Result<String, Fail> {
    match read(alloc, text) {
        Ok(profile) => {
            let (devices, spares) = (profile.devices().len(), profile.spares().len());
            Ok(format!(in alloc; "{devices} and {spares}")?)
        }
        Err(fault) => Ok(format!(in alloc; "{fault}")?),
    }
}

/// What is told of a text: its mistake, or what it is answered where it has none.
fn told(alloc: Global, text: &str) -> Result<String, Fail> {
    match mistake_in(alloc, text)? {
        Some(mistake) => Ok(format!(in alloc; "{mistake}")?),
        None => answer(alloc, text),
    }
}

#[test]
fn what_texts_are_answered(rt: HostRuntime) -> Result<(), Fail> {
    for case in [
        " -> 0 and 0",
        "x=1 -> entry 0 of the profile is not sound",
        "device=3 -> entry 0 of the profile is not sound",
        "device=[3] -> entry 1 of the profile is not sound",
        "device=[{name='d1'}] -> entry 1 of the profile is not sound",
        "device=[{name='d1',category='CashDrawer'}]\nspare=[{category='HardTotals'}] \
        -> entry 2 of the profile is not sound",
        "device=[{name='t1',category='HardTotals'},{name='t2',category='HardTotals'}] \
        -> entry 2 of the profile is not sound",
        "device=[{name='d1',category='CashDrawer'},{name='d1',category='CashDrawer'}] \
        -> two devices of the profile have the name d1",
        "device=[ -> the profile is no TOML document",
    ] {
        let (text, wanted) = case.split_once(" -> ").expect(&rt, "an arrow");
        let line = answer(rt.alloc(), text)?;
        assert_eq!(rt; line.as_str(), wanted, "{case}");
    }
    Ok(())
}

#[test]
fn what_is_told_of_texts(rt: HostRuntime) -> Result<(), Fail> {
    for case in [
        "spare=[{category='CashDrawer'},{category='Scanner'}] -> 0 and 2",
        "device=[ -> the profile is no TOML document",
        "device=[3]\nx=1 -> profile: unknown key: x",
        "spare=[{category='Scanner'},3] -> spare 2: must be a table",
        "device=[{category='HardTotals',name='t'},{name='d'}] -> device 2: category must be CashDrawer, \
        Scanner, LineDisplay, POSPrinter or HardTotals",
    ] {
        let (text, wanted) = case.split_once(" -> ").expect(&rt, "an arrow");
        let line = told(rt.alloc(), text)?;
        assert_eq!(rt; line.as_str(), wanted, "{case}");
    }
    Ok(())
}

#[test]
fn texts_of_faults(rt: HostRuntime) -> Result<(), Fail> {
    let line = format!(in rt.alloc();
        "{}; {}; {}; {}; {}; {}; {}; {}",
        ProfileFault::BadEntry(7),
        ProfileFault::NoMemory,
        AttachFault::Unknown,
        AttachFault::KindDiffers,
        AttachFault::InUse,
        DetachFault::Unknown,
        DetachFault::Vacant,
        DetachFault::InUse
    )?;
    assert_eq!(rt;
        line.as_str(),
        "entry 7 of the profile is not sound; no memory; there is no such device; the peripheral is of another kind; \
        the device has its peripheral; there is no such device; the device has no peripheral; \
        a control has the device open"
    );
    Ok(())
}

/// How entries differ from plain ones, a line each.
fn variations(alloc: Global, entries: &[Entry]) -> Result<String, Fail> {
    let mut text = String::new(alloc);
    for entry in entries {
        let (ring, recorded) = (entry.ring, entry.recorded);
        let line = match entry.flaky {
            Some((first, times)) => {
                format!(in alloc; "ring {ring}, flaky {first} {times}, recorded {recorded}\n")?
            }
            None => format!(in alloc; "ring {ring}, recorded {recorded}\n")?,
        };
        text.push_str(line.as_str())?;
    }
    Ok(text)
}

#[test]
fn optional_keys_are_read(rt: HostRuntime) -> Result<(), Fail> {
    let text = "device=[{name='d1',category='CashDrawer',flaky=[1,2],record=true},\
        {name='s1',category='Scanner',flaky=[0,1000000]},{name='s2',category='Scanner',record=false},\
        {name='p1',category='LineDisplay',rows=2,columns=4,ring=true},{name='t1',category='HardTotals'}]\n\
        spare=[{category='LineDisplay',rows=2,columns=4,ring=false,flaky=[1000000,0],record=true},\
        {category='POSPrinter',chars=8,lines=5,near=2,flaky=[3,4]}]";
    let profile = read(rt.alloc(), text)?;
    let devices = variations(rt.alloc(), profile.devices())?;
    assert_eq!(rt;
        devices.as_str(),
        "ring false, flaky 1 2, recorded true\nring false, flaky 0 1000000, recorded false\n\
        ring false, recorded false\nring true, recorded false\nring false, recorded false\n"
    );
    let spares = variations(rt.alloc(), profile.spares())?;
    assert_eq!(rt;
        spares.as_str(),
        "ring false, flaky 1000000 0, recorded true\nring false, flaky 3 4, recorded false\n"
    );
    Ok(())
}

/// The built-in profile.
const BUILT: &str = "spare=[{category='CashDrawer'}]\ndevice=[{name='d1',category='CashDrawer'},\
    {name='s1',category='Scanner'},{name='p1',category='LineDisplay',rows=2,columns=4},\
    {name='r1',category='POSPrinter',chars=8,lines=5,near=2},{name='t1',category='HardTotals'}]";

/// Whether entries are the same, one by one.
fn are_same(some: &[Entry], others: &[Entry]) -> bool {
    some.len() == others.len()
        && some.iter().zip(others.iter()).all(|(one, other)| {
            one.name.as_str() == other.name.as_str()
                && one.kind() == other.kind()
                && one.category == other.category
                && one.lines == other.lines
                && one.ring == other.ring
                && one.flaky == other.flaky
                && one.recorded == other.recorded
        })
}

#[test]
fn the_built_profile_is_what_its_text_says(rt: HostRuntime) -> Result<(), Fail> {
    let built = Profile::built(rt.alloc())?;
    let read = read(rt.alloc(), BUILT)?;
    assert!(rt; are_same(built.devices(), read.devices()));
    assert!(rt; are_same(built.spares(), read.spares()));
    Ok(())
}
