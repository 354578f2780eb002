//! The names of a scene's files.
ghost use Rattle.std.specs.Prelude.{◌≡◌, option_copied, slice_get};
ghost use Rattle.wx_world.specs.Names as names;

use wx_id::Utf8Text;
use wx_script::{Scene, SceneExtension, SceneFile};

/// The extension at this place of the scene, from 0.
pub(crate) fn extension_at(scene: &Scene, place: u64) -> Option<&SceneExtension>
    ensures { option_copied result ≡ slice_get scene.now.extensions place }
{
    scene.extensions().get(place as usize)
}

fn text_or_empty(text: Option<&Utf8Text>) -> &str
    ensures { result.now ≡ names.text_or_empty (option_copied text.entry) }
{
    match text {
        Some(text) => text.as_str(),
        None => "",
    }
}

fn extension_file(extension: Option<&SceneExtension>) -> &str
    ensures { result.now ≡ names.extension_file (option_copied extension.entry) }
{
    match extension {
        Some(extension) => text_or_empty(extension.file.as_ref()),
        None => "",
    }
}

/// The name under which a file stands, as the scene writes it.
pub(crate) fn name_of(scene: &Scene, file: SceneFile) -> &str
    ensures { result.now ≡ names.name_of scene.now file }
{
    match file {
        SceneFile::Extension(place) => extension_file(extension_at(scene, place)),
        SceneFile::Host(place) => text_or_empty(scene.hosts().get(place as usize)),
    }
}

/// The name of the file at this place among those that the scene names, from 0, as the scene writes it. It is empty
/// where the scene names no such file.
pub fn name_at(scene: &Scene, place: u64) -> &str
    ensures { result.now ≡ names.name_at scene.now place }
{
    match scene.files().get(place as usize) {
        Some(file) => name_of(scene, *file),
        None => "",
    }
}
