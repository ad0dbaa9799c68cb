//! The tree and the log of an image.
ghost use Rattle.std.specs.List.{AllByRecursion};
ghost use Rattle.std.specs.Prelude.{◌≡◌, IfErr, IfOk};
ghost use Rattle.iot_image.specs.Shown.{IsShown, image_text, places};
ghost use Rattle.iot_store.specs.Images.{IsRefusal};
ghost use Rattle.iot_views.specs.Rules.{IsLabel};

use iot_disk::MemDisk;
use iot_inspect::{log, show};
use iot_store::{Image, ImageFault, Store};
use iot_text::{NoMemory, Path, Text};
use std::alloc::Global;

/// The tree of the state for which the bytes of a server's disk stand, as the event `show server` prints it, and then its commits, as
/// `log` does. A client goes by its place, since an image holds no names of clients.
///
/// # Errors
///
/// Those of [`Store::image`].
pub fn show_image(alloc: Global, bytes: &[u8]) -> Result<Text, ImageFault>
    ensures shown { IfOk result (IsShown bytes.now) }
    ensures cause { IfErr result (IsRefusal bytes.now) }
{
    // Every store reads images in the same way, whatever its disk.
    let image = Store::<MemDisk>::image(alloc, bytes)?;
    Ok(tell(alloc, &image)?)
}

/// The tree and the commits of an image.
fn tell(alloc: Global, image: &Image) -> Result<Text, NoMemory>
    requires { AllByRecursion IsLabel image.now.labels }
    ensures { IfOk result (λ text. text ≡ image_text image.now.tree image.now.labels) }
{
    let places = places(alloc)?;
    let mut text = Text::new(alloc);
    show(&image.tree, &mut text)?;
    log(&image.labels, places.names(), &mut text)?;
    Ok(text)
}

/// The places of eight clients, for their names.
fn places(alloc: Global) -> Result<Path, NoMemory>
    ensures { IfOk result (λ path. path ≡ places) }
{
    match Path::parse(alloc, b"/0/1/2/3/4/5/6/7") {
        Ok(path) => Ok(path),
        // The text is that of a path, so that only memory can be lacking.
        Err(_) => Err(NoMemory),
    }
}
