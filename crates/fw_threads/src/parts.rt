//! A store is taken apart into the ends of its threads.
ghost use Rattle.std.specs.Prelude.{◌≡◌, ◌≤◌, ◌<◌, [], false, drop, length, All, IsOk, IfOk, IfErr, IfSome};
ghost use Rattle.std.specs.Vec.{vec_len, vec_capacity};
ghost use Rattle.std.specs.Arc.{arc_value};
ghost use Rattle.fw_threads.specs.Flushed.{AreCounts};

use crate::analyst::Analyst;
use crate::flusher::Flusher;
use crate::importer::Importer;
use crate::mark::Mark;
use crate::naming::{Naming, Opened};
use crate::published::{Page, Published};
use crate::publisher::{Publisher, Start, publish};
use crate::shared::Shared;
use crate::waiting::InHand;
use fw_disk::Volume;
use fw_growing::{Beginning, Growing};
use fw_recover::Store;
use fw_snapshot::{Entry, Snapshot};
use left_right::writer::Writer;
use std::alloc::{AllocError, Global};
use std::sync::{Arc, Wait};
use thiserror::Error;

/// At most so many importers, and as many analysts.
const MOST_ENDS: usize = 64;

/// The ends of one split.
pub struct Parts<J: Naming, V: Volume> {
    pub importers: Vec<Importer<J>>,
    pub flusher: Flusher<J, V>,
    pub analysts: Vec<Analyst<J>>,
}

/// Why a store was not taken apart.
#[derive(Clone, Copy, Debug, PartialEq, Eq, Error)]
pub enum SplitFault {
    /// The importers and the analysts have to be 1 to 64 each.
    #[error("G1 Counts")]
    Counts,
    /// The snapshots can't be shared with the analysts.
    #[error("G2 Readers")]
    Readers,
    /// The allocator refused a growth.
    #[error("NoMemory")]
    NoMemory,
}

/// Takes a store apart into so many importers, a flusher and so many analysts, 1 to 64 each. Each end begins with the store's warehouse,
/// which is published.
///
/// # Errors
/// `Counts`, then `NoMemory` or `Readers`. The store comes back as it was.
pub fn split<J: Naming, V: Volume, R: Wait>(
    rt: &R,
    alloc: Global,
    opened: Opened,
    store: Store<V>,
    importers: usize,
    analysts: usize,
) -> Result<Parts<J, V>, (Store<V>, SplitFault)>
    requires { (opened.fronts ≡ J.fronts) × (opened.posts ≡ J.posts) }
    ensures flusher { IfOk result (λ p. p.flusher
        ≡ record { published = store.history; store = store; unpublished = false; hand = [] }) }
    ensures importers { IfOk result (λ p. (length p.importers.items ≡ importers)
        × All (λ i. i ≡ store.history) p.importers.items) }
    ensures analysts { IfOk result (λ p. (length p.analysts.items ≡ analysts)
        × All (λ a. a ≡ store.history) p.analysts.items) }
    ensures back { IfErr result (λ e. e.0 ≡ store) }
    ensures counts { IsOk result → AreCounts importers analysts }
    ensures not_counts { IfErr result (λ e. e.1 ≡ SplitFault.Counts → AreCounts importers analysts
        → ⊥) }
    ensures counts_first { IfErr result (λ e. (AreCounts importers analysts → ⊥)
        → e.1 ≡ SplitFault.Counts) }
{
    if importers == 0 || importers > MOST_ENDS || analysts == 0 || analysts > MOST_ENDS {
        return Err((store, SplitFault::Counts));
    }
    match make_ends(rt, alloc, opened, store.state(), importers, analysts) {
        Ok(ends) => {
            let Ends {
                front,
                growing,
                writer,
                shared,
                importers,
                analysts,
            } = ends;
            let publisher = Publisher::new(alloc, store, front, growing, writer);
            Ok(Parts {
                importers,
                flusher: Flusher::new(publisher, InHand::new(alloc), shared),
                analysts,
            })
        }
        Err(fault) => Err((store, fault)),
    }
}

// All ends, but for the store.
struct Ends<J: Naming> {
    front: Published<J>,
    growing: Growing<Snapshot>,
    writer: Start<J>,
    shared: Arc<Shared<J>, Global>,
    importers: Vec<Importer<J>>,
    analysts: Vec<Analyst<J>>,
}

fn make_ends<J: Naming, R: Wait>(
    rt: &R,
    alloc: Global,
    opened: Opened,
    first: &Snapshot,
    importers: usize,
    analysts: usize,
) -> Result<Ends<J>, SplitFault>
    requires name { (opened.fronts ≡ J.fronts) × (opened.posts ≡ J.posts) }
    requires counts { (0 < analysts) × (analysts ≤ 64) }
    ensures front { IfOk result (λ e. (e.front ≡ first.now) × (e.growing ≡ J.fronts)) }
    ensures writer { IfOk result (λ e. (e.writer.desk.shown.value.front ≡ first.now)
        × (drop e.writer.behind e.writer.log.items ≡ [])) }
    ensures importers { IfOk result (λ e. (length e.importers.items ≡ importers)
        × All (λ i. i ≡ first.now) e.importers.items) }
    ensures analysts { IfOk result (λ e. (length e.analysts.items ≡ analysts)
        × All (λ a. a ≡ first.now) e.analysts.items) }
    ensures fault { IfErr result (λ e. e ≡ SplitFault.Counts → ⊥) }
{
    let Opened {
        fronts: growing,
        front,
        posts,
        post,
    } = opened;
    let Some(mark) = Mark::first(&growing, front, first) else {
        return Err(SplitFault::Readers);
    };
    let Ok(shared) = shared_by(alloc, posts, post, importers) else {
        return Err(SplitFault::NoMemory);
    };
    let Ok(importers) = importers_of(alloc, &shared, &mark, importers) else {
        return Err(SplitFault::NoMemory);
    };
    let Ok(room) = Vec::with_capacity(alloc, analysts) else {
        return Err(SplitFault::NoMemory);
    };
    let Ok(fronts) = fronts(first, &mark) else {
        return Err(SplitFault::NoMemory);
    };
    let (front, shown, spare, warm) = fronts;
    let Ok(writer) = Writer::new(alloc, Page::of(shown), Page::of(spare), analysts) else {
        return Err(SplitFault::NoMemory);
    };
    // The first publication makes the room that later ones use.
    let (writer, done) = publish(writer, rt, warm);
    if !done {
        drop(writer.take(rt));
        return Err(SplitFault::NoMemory);
    }
    let Some(analysts) = analysts_of(&writer, room, &mark, analysts) else {
        drop(writer.take(rt));
        return Err(SplitFault::Readers);
    };
    Ok(Ends {
        front,
        growing,
        writer,
        shared,
        importers,
        analysts,
    })
}

// Four fronts of one snapshot.
fn fronts<J: Naming>(
    first: &Snapshot,
    mark: &Mark,
) -> Result<(Published<J>, Published<J>, Published<J>, Published<J>), AllocError>
    requires front { mark.now.front ≡ first.now }
    requires of { mark.now.of ≡ J.fronts }
    ensures { IfOk result (λ t. (t.0 ≡ first.now) × (t.1 ≡ first.now) × (t.2 ≡ first.now)
        × (t.3 ≡ first.now)) }
{
    let front = Published::new(first.copy()?, mark.again());
    let (shown, spare, warm) = (front.copy()?, front.copy()?, front.copy()?);
    Ok((front, shown, spare, warm))
}

fn shared_by<J: Naming>(
    alloc: Global,
    growing: Growing<Entry>,
    posts: Beginning<Entry>,
    importers: usize,
) -> Result<Arc<Shared<J>, Global>, AllocError>
    requires { (growing ≡ J.posts) × (posts.of ≡ J.posts) }
    ensures { IfOk result (λ s. length (arc_value s).slots.items ≡ importers) }
{
    Ok(Arc::new(alloc, Shared::new(alloc, growing, posts, importers)?)?)
}

fn importers_of<J: Naming>(
    alloc: Global,
    shared: &Arc<Shared<J>, Global>,
    mark: &Mark,
    count: usize,
) -> Result<Vec<Importer<J>>, AllocError>
    requires slots { length (arc_value shared.now).slots.items ≡ count }
    requires of { mark.now.of ≡ J.fronts }
    ensures count { IfOk result (λ v. length v.items ≡ count) }
    ensures same { IfOk result (λ v. All (λ i. i ≡ mark.now.front) v.items) }
{
    let mut all = Vec::new(alloc);
    for number in 0..count {
        all.push(Importer::new(number, mark.again(), Arc::try_clone(shared)?))?;
    }
    Ok(all)
}

fn analysts_of<J: Naming>(
    writer: &Start<J>,
    room: Vec<Analyst<J>>,
    mark: &Mark,
    count: usize,
) -> Option<Vec<Analyst<J>>>
    requires room { (room.items ≡ []) × (count ≤ vec_capacity room) }
    requires of { mark.now.of ≡ J.fronts }
    ensures count { IfSome result (λ v. length v.items ≡ count) }
    ensures same { IfSome result (λ v. All (λ a. a ≡ mark.now.front) v.items) }
{
    let mut all = room;
    for _ in 0..count {
        match writer.factory().reader() {
            Ok(reader) => all.push_reserved(Analyst::new(reader, mark.again())),
            Err(_) => return None,
        }
    }
    Some(all)
}
