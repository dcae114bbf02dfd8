//! A till with one cash drawer: it opens the drawer, and prints what is told of it.
#![tactic(auto)]

ghost use Rattle.pos_counter.specs.Counters.{IsCounterSound};

mod drawer;

use anyhow::bail;
use drawer::Drawer;
use pos_counter::Counter;
use pos_disk::MemDisk;
use pos_image::new_disk;
use pos_profile::Profile;
use pos_service::{
    Answer, Bytes, Call, Category, ErrorReply, Event, NoMemory, Peripheral, PeripheralBox,
    Property, Value,
};

/// The devices of the counter.
const PROFILE: &str = "[[device]]\nname = 'drawer'\ncategory = 'CashDrawer'\n";

/// A call has to be done.
fn done(answer: Result<Answer, NoMemory>) -> anyhow::Result<()> {
    match answer? {
        Answer::Done(_) => Ok(()),
        Answer::Refused(code, _) => bail!("refused with {}", code.number()),
    }
}

/// Opens the drawer, and prints what is told of it.
fn open_drawer<P: Peripheral>(
    rt: &HostRuntime,
    counter: &mut Counter<MemDisk, P>,
) -> anyhow::Result<()>
    requires { IsCounterSound P.Peripheral counter.old }
    ensures { IsCounterSound P.Peripheral counter.new }
{
    let name = Bytes::from_slice(rt.alloc(), b"drawer")?;
    let enable = Call::Set(Property::DeviceEnabled, Value::Truth(true));
    let drawer = counter.control(Category::CashDrawer)?;
    done(counter.call(drawer, &Call::Open(name)))?;
    done(counter.call(drawer, &Call::Claim(0)))?;
    done(counter.call(drawer, &enable))?;
    done(counter.call(drawer, &Call::OpenDrawer))?;
    if let Some(Event::StatusUpdate(status)) = counter.deliver(drawer, ErrorReply::Default) {
        println!(rt; "StatusUpdateEvent {status}")?;
    }
    Ok(())
}

fn main(rt: HostRuntime) -> anyhow::Result<()> {
    let alloc = rt.alloc();
    let profile = Profile::from_text(alloc, PROFILE)?;
    let disk = new_disk(alloc)?;
    let driver = PeripheralBox::new(Box::new(alloc, Drawer::new())?);
    let Ok(mut counter) = Counter::new(alloc, &profile, Vec::new(alloc), disk) else {
        driver.end();
        bail!("no memory for the counter");
    };
    if let Err((_, refused)) = counter.attach(b"drawer", driver) {
        refused.end();
    }
    let outcome = open_drawer(&rt, &mut counter);
    counter.shutdown().end();
    outcome
}
