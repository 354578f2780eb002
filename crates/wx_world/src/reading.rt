//! Reads the files that a scene names, one after another.
ghost use Rattle.std.specs.Prelude.{◌≡◌, ◌≤◌, IfOk, IfErr, OnOk};
ghost use Rattle.wx_world.specs.declared.faults.WorldFault.TheVariants as fault;
ghost use Rattle.wx_world.specs.Reading.{IsAdded, AddsNothing, IsWorldOf, HasCause, IsOfAFile};

use crate::faults::{FileFault, FileKind, FileRefusal, WorldFault};
use crate::judging::add_found;
use crate::names::name_of;
use std::alloc::Global;
use wx_external::World;
use wx_outside::{Shelf, ShelfFault};
use wx_script::{Scene, SceneFile};

fn refused(file: u64, kind: FileKind) -> WorldFault
    ensures { result ≡ fault.Refused (record { file = file; kind = kind }) }
{
    WorldFault::Refused(FileRefusal { file, kind })
}

/// Reads the file that has this number among those that the scene names, judges it, and adds what it holds to the
/// world.
fn add_file<F: Shelf>(
    alloc: Global,
    scene: &Scene,
    number: u64,
    file: SceneFile,
    world: &mut World,
    shelf: &mut F,
) -> Result<(), WorldFault>
    ensures ok { OnOk result (IsAdded (F.state shelf.old).files scene.now file world.old world.new) }
    ensures err { IfErr result (λ why.
        AddsNothing (F.state shelf.old).files scene.now number file world.old (F.state shelf.old).faults
        (F.state shelf.new).faults why) }
    ensures later { (F.state shelf.old).faults ≤ (F.state shelf.new).faults }
    ensures unchanged { (F.state shelf.new).files ≡ (F.state shelf.old).files }
{
    match shelf.read(alloc, name_of(scene, file)) {
        Ok(found) => match add_found(alloc, scene, file, &found, world) {
            Ok(()) => Ok(()),
            Err(FileFault::Refused(kind)) => Err(refused(number, kind)),
            Err(FileFault::NoMemory) => Err(WorldFault::NoMemory),
        },
        Err(ShelfFault::Failed) => Err(WorldFault::ReadFailed(number)),
        Err(ShelfFault::NoMemory) => Err(WorldFault::NoMemory),
    }
}

/// The world of a scene: each extension with a file by its id, and each host, in scene order. The files are read from
/// the shelf under the names that the scene writes; each is judged before the next is read, and the first that is
/// refused or can't be read ends it. Only want of memory is answered without its cause.
pub fn read_world<F: Shelf>(
    alloc: Global,
    scene: &Scene,
    shelf: &mut F,
) -> Result<World, WorldFault>
    ensures ok { IfOk result (λ world. IsWorldOf (F.state shelf.old).files scene.now world) }
    ensures err { IfErr result (λ why.
        HasCause (F.state shelf.old).files scene.now (F.state shelf.old).faults (F.state shelf.new).faults why) }
    ensures of_a_file { IfErr result (λ why. IsOfAFile why) }
    ensures later { (F.state shelf.old).faults ≤ (F.state shelf.new).faults }
    ensures unchanged { (F.state shelf.new).files ≡ (F.state shelf.old).files }
{
    let mut world = World::new(alloc);
    for (n, file) in scene.files().iter().enumerate() {
        add_file(alloc, scene, n as u64, *file, &mut world, shelf)?;
    }
    Ok(world)
}
