// The store's two copies, as the keeper has them.
ghost use Rattle.left_right.specs.Sides.{view};
ghost use Rattle.nm_publish.specs.History.{GoesOn};
ghost use Rattle.nm_publish.specs.Shown.{front_after};
ghost use Rattle.nm_publish.specs.Sight.{sight};
ghost use Rattle.std.specs.Prelude.{◌≡◌, ◌<◌, ◌++◌, [], ◌∷◌, IfOk, drop};

use crate::gate::Gate;
use crate::shown::{Exhibit, Shown};
use crate::sight::{Grows, Hear, Publish, Sight, Tell};
use core::mem::replace_with;
use nm_base::NoMemory;
use std::alloc::Global;
use std::marker::Model;
use std::sync::Wait;

/// The writer of the two copies.
type Writer = left_right::writer::Writer<Shown, Exhibit, Sight, Grows>;

/// The two copies. A contract sees the history as far as it is published. The handle `R` is kept,
/// since a desk that is dropped waits for the readers that are inside.
pub(crate) struct Desk<R: Wait + Drop> {
    writer: Writer,
    rt: R,
}

impl<R: Wait + Drop> Model for Desk<R> {
    ghost use Rattle.std.specs.Prelude.{◌≡◌, [], drop};
    ghost use Rattle.left_right.specs.Sides as sides;
    ghost use Rattle.nm_publish.specs.History.{History};
    ghost use Rattle.nm_publish.specs.Sight.{sight};

    ghost Value = { History };

    ghost view = { λ desk. desk.writer.desk.shown.value.front };

    ghost invariant = { λ desk. (sides.view desk.writer.desk.place ≡ sight desk.writer.desk.shown.value.front 0) × (drop desk.writer.behind desk.writer.log.items ≡ []) };
}

impl<R: Wait + Drop> Desk<R> {
    /// Two copies of the exhibit, with places for so many readers.
    ///
    /// The exhibit goes through the writer's list of operations once, so that the list has room for
    /// each later one.
    pub(crate) fn open(
        rt: R,
        alloc: Global,
        exhibit: Exhibit,
        readers: usize,
    ) -> Result<Desk<R>, NoMemory>
        requires { (0 < readers) × (readers < 4294967296) }
        ensures { IfOk result (λ desk. desk ≡ exhibit.front) }
    {
        let (first, second) = (exhibit.shown(), exhibit.shown());
        let mut writer: Writer = left_right::writer::Writer::new(alloc, first, second, readers)?;
        match writer.append(exhibit) {
            Ok(()) => Ok(Desk {
                writer: published(&rt, writer),
                rt,
            }),
            Err(_refused) => {
                writer.take(&rt);
                Err(NoMemory)
            }
        }
    }

    /// A place for one more reader, which has seen what is published.
    pub(crate) fn gate(&mut self) -> Result<Gate, NoMemory>
        ensures gate { IfOk result (λ gate. gate ≡ sight self.old 0) }
        ensures same { self.new ≡ self.old }
    {
        let mut seat = self.writer.factory().reader()?;
        seat.learn::<Hear>(self.writer.tell::<Tell>());
        Ok(Gate::new(seat))
    }

    /// Publishes the exhibit.
    pub(crate) fn show<W: Wait>(&mut self, rt: &W, exhibit: Exhibit)
        requires { GoesOn self.old exhibit.front }
        ensures { self.new ≡ exhibit.front }
    {
        appended(rt, &mut self.writer, exhibit);
        publish(rt, &mut self.writer);
    }
}

impl<R: Wait + Drop> Drop for Desk<R> {
    fn drop(self) {
        let Self { writer, rt } = self;
        writer.take(&rt);
    }
}

/// Appends the exhibit, as soon as there is memory for it.
fn appended<W: Wait>(rt: &W, writer: &mut Writer, exhibit: Exhibit)
    ensures desk { writer.new.desk ≡ writer.old.desk }
    ensures pending { drop writer.new.behind writer.new.log.items ≡ drop writer.old.behind writer.old.log.items ++ exhibit ∷ [] }
{
    let mut exhibit = exhibit;
    for _ in rt.forever() {
        match writer.append(exhibit) {
            Ok(()) => return,
            Err(refused) => exhibit = refused,
        }
    }
    unreachable!()
}

/// The writer once it has published the one exhibit that is pending.
fn published<W: Wait>(rt: &W, writer: Writer) -> Writer
    requires goes_on { GoesOn writer.desk.shown.value.front (front_after writer.desk.shown.value.front (drop writer.behind writer.log.items)) }
    requires stays { (view writer.desk.place).enterings ≡ 0 }
    ensures shown { result.desk.shown.value.front ≡ front_after writer.desk.shown.value.front (drop writer.behind writer.log.items) }
    ensures seen { view result.desk.place ≡ sight result.desk.shown.value.front 0 }
    ensures settled { drop result.behind result.log.items ≡ [] }
{
    let (writer, _published) = writer.publish_as::<Publish, W>(rt);
    writer
}

/// Publishes the one exhibit that is pending.
fn publish<W: Wait>(rt: &W, writer: &mut Writer)
    requires goes_on { GoesOn writer.old.desk.shown.value.front (front_after writer.old.desk.shown.value.front (drop writer.old.behind writer.old.log.items)) }
    requires stays { (view writer.old.desk.place).enterings ≡ 0 }
    ensures shown { writer.new.desk.shown.value.front ≡ front_after writer.old.desk.shown.value.front (drop writer.old.behind writer.old.log.items) }
    ensures seen { view writer.new.desk.place ≡ sight writer.new.desk.shown.value.front 0 }
    ensures settled { drop writer.new.behind writer.new.log.items ≡ [] }
{
    replace_with(writer, rt, |writer, rt| (published(rt, writer), ()))
}
