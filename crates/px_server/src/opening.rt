// A server over a folder that was opened.
ghost use Rattle.std.specs.Prelude.{◌≡◌, ◌≤◌, [], ℕ, None, IfOk, IfErr, IfSome, IsTrue, map};
ghost use Rattle.std.specs.List.{All};
ghost use Rattle.px_outside.specs.Disk.{Image};
ghost use Rattle.px_outside.specs.OnDisk.{IsLeft};
ghost use Rattle.px_catalog.specs.Catalogue.{HasCatalogue, standing_of};
ghost use Rattle.px_recovery.specs.Base.{IsSound, IsSoundFolder, base_of};
ghost use Rattle.px_recovery.specs.Folder.{AreFresh, StandsFor, StandsOn};
ghost use Rattle.px_recovery.specs.Stands.{Recovers};
ghost use Rattle.px_folder.specs.Read.{IsReadOn};
ghost use Rattle.px_standing.specs.Agrees.{opened_standing};
ghost use Rattle.px_opening.specs.Opened.{IsOpenedRight, all_regions, folder_in};
ghost use Rattle.px_opening.specs.declared.opened.Opened.{Opened as Folders};
ghost use Rattle.px_server.specs.Others.{BeginsAt};
ghost use Rattle.px_server.specs.Shown.{logged_in};
ghost use Rattle.px_server.specs.Started.{IsOpenedOn, KeepsFolder, StartsSound};

use crate::{Founded, Server};
use px_catalog::Catalog;
use px_gatelog::Frame;
use px_opening::Opened;
use px_outside::{Clock, CountsCalls, Disk};
use px_schema::Standing;
use px_seat::Based;
use px_standing::opened as stands_opened;
use px_trail::Trail;
use std::alloc::Global;
use std::marker::PhantomData;

/// The seat that acts first.
const FIRST_SEAT: u32 = 1;

/// The longest body of a record.
const MOST_BODY: u64 = 8388620;

/// What a server keeps beside what was opened: what stands, a trail with room for one entry, and a frame for each record.
struct Beside {
    standing: Standing,
    trail: Trail,
    frame: Frame,
}

/// A trail without an entry, with room for the one that closes the server.
fn first_trail(alloc: Global) -> Option<Trail>
    ensures { IfSome result (λ t. (t.entries ≡ []) × (t.room ≡ 1)) }
{
    let mut trail = Trail::new(alloc);
    match trail.reserve(1, 0) {
        Ok(()) => Some(trail),
        Err(_) => {
            drop(trail);
            None
        }
    }
}

/// A trail, and a frame for each record.
fn trail_and_frame(alloc: Global) -> Option<(Trail, Frame)>
    ensures { IfSome result (λ p. (p.0.entries ≡ []) × (p.0.room ≡ 1) × (8388620 ≤ p.1.room)) }
{
    let trail = first_trail(alloc)?;
    match Frame::with_room(alloc, MOST_BODY) {
        Ok(frame) => Some((trail, frame)),
        Err(_) => {
            drop(trail);
            None
        }
    }
}

/// What a server keeps beside what was opened.
fn made_beside(alloc: Global, catalog: &Catalog) -> Option<Beside>
    ensures standing { IfSome result (λ k. k.standing ≡ opened_standing (standing_of catalog.now)) }
    ensures trail { IfSome result (λ k. (k.trail.entries ≡ []) × (k.trail.room ≡ 1)) }
    ensures frame { IfSome result (λ k. 8388620 ≤ k.frame.room) }
{
    let (trail, frame) = trail_and_frame(alloc)?;
    match stands_opened(alloc, catalog.standing()) {
        Ok(standing) => Some(Beside {
            standing,
            trail,
            frame,
        }),
        Err(_) => {
            drop(trail);
            drop(frame);
            None
        }
    }
}

impl<D: CountsCalls, C: Clock + Drop, B: Based + Founded> Server<D, C, B> {
    /// A server over what was opened. The disk comes back where memory is refused.
    pub fn over(
        alloc: Global,
        disk: D,
        clock: C,
        lookback: u64,
        opened: Opened,
    ) -> Result<Server<D, C, B>, D>
        requires right { IsOpenedRight opened }
        requires base { B.base ≡ base_of (folder_in opened) }
        requires sound { B.sound → IsSoundFolder (folder_in opened) }
        requires disk { B.premise → IsTrue D.tells → IsOpenedOn ⟦<D as Disk>⟧ disk opened }
        requires told { B.premise → IsTrue D.tells → B.sound }
        requires began { BeginsAt ⟦<D as Disk>⟧ B.began disk }
        requires times { IsTrue C.tells → (n : ℕ) → C.times clock n ≡ B.times n }
        requires lookback { lookback ≡ B.lookback }
        ensures ok { IfOk result (λ s. s ≡ record { seat = 1; entries = []; late = None; closed = None; logged = map logged_in opened.groups.items; groups = opened.groups.items; lookback = lookback; raising = None; calls = D.calls disk; faults = D.faults disk }) }
        ensures refused { IfErr result (λ back. back ≡ disk) }
    {
        let Opened {
            catalog,
            groups,
            others,
        } = opened;
        drop(others);
        match made_beside(alloc, &catalog) {
            Some(beside) => {
                let Beside {
                    standing,
                    trail,
                    frame,
                } = beside;
                Ok(Server {
                    alloc,
                    seat: FIRST_SEAT,
                    disk,
                    clock,
                    lookback,
                    raising: None,
                    in_vain: false,
                    catalog,
                    standing,
                    groups,
                    trail,
                    late: None,
                    closed: None,
                    frame,
                    of: PhantomData,
                })
            }
            None => {
                drop(clock);
                drop(catalog);
                drop(groups);
                Err(disk)
            }
        }
    }
}

/// What a program knows of a folder that it opens on a disk of which the premise of a run is true. What `open` of px_opening tells is
/// what a server over it asks of the disk; where it fails, each image that a stop may leave recovers all the same. Both are told over the base
/// of the folder that was there.
pub fn law_starts<D: Disk>()
    ensures opened { (old : D) → (new : D) → (o : Folders) → StartsSound ⟦<D as Disk>⟧ old → IsTrue D.tells → (IsTrue D.tells → IsSound (D.seen old) → StandsFor (D.seen old) (folder_in o) × IsSoundFolder (folder_in o)) → (IsTrue D.tells → AreFresh ⟦<D as Disk>⟧ old (standing_of o.catalog).next → StandsOn ⟦<D as Disk>⟧ new (folder_in o)) → (IsTrue D.tells → HasCatalogue ⟦<D as Disk>⟧ o.catalog new) → (IsTrue D.tells → All (IsReadOn ⟦<D as Disk>⟧ old new) (all_regions o)) → (IsTrue D.tells → KeepsFolder ⟦<D as Disk>⟧ old new) → IsOpenedOn ⟦<D as Disk>⟧ new o }
    ensures base { (old : D) → (o : Folders) → (starts : StartsSound ⟦<D as Disk>⟧ old) → IsTrue D.tells → (IsTrue D.tells → IsSound (D.seen old) → StandsFor (D.seen old) (folder_in o) × IsSoundFolder (folder_in o)) → base_of (folder_in o) ≡ base_of starts.sound.folder }
    ensures failed { (old : D) → (new : D) → (starts : StartsSound ⟦<D as Disk>⟧ old) → (IsTrue D.tells → KeepsFolder ⟦<D as Disk>⟧ old new) → (moment : ℕ) → (image : Image) → IsLeft ⟦<D as Disk>⟧ new moment image → Recovers (base_of starts.sound.folder) [] None moment image }
{}
