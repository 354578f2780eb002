//! The law of worlds.
ghost use Rattle.std.specs.Prelude.{◌≡◌, Some, Ok, Err};
ghost use Rattle.wx_outside.specs.Shelf.{Files};
ghost use Rattle.wx_script.specs.SceneValue.{SceneValue};
ghost use Rattle.wx_external.specs.World.{WorldLists};
ghost use Rattle.wx_world.specs.declared.faults.FileRefusal.{FileRefusal};
ghost use Rattle.wx_world.specs.Files.{world_of};
ghost use Rattle.wx_world.specs.Reading.{IsWorldOf, IsFirstRefusal};

/// The law of worlds: where a shelf tells its files, a scene has one world or one first refusal, by what the shelf has
/// under the names of the scene's files. It does nothing when it runs.
pub fn one_world()
    ensures world { (shelf : Files) (scene : SceneValue) (world : WorldLists) →
        IsWorldOf (Some shelf) scene world → world_of shelf scene ≡ Ok world }
    ensures refusal { (shelf : Files) (scene : SceneValue) (refusal : FileRefusal) →
        IsFirstRefusal (Some shelf) scene refusal → world_of shelf scene ≡ Err refusal }
{}
