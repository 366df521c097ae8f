// Images of a book, as C saves and loads them.
ghost use Rattle.image.specs.Image.{Saving, Loading};

use image::{load, number_in, save};

#[unsafe(no_mangle)]
pub extern "C" fn depot_save_image(book: &[u32], image: &mut [u8]) -> u32
    ensures { Saving book.now image.old result image.new }
{
    number_in(save(book, image))
}

#[unsafe(no_mangle)]
pub extern "C" fn depot_load_image(book: &mut [u32], image: &[u8]) -> u32
    ensures { Loading book.old image.now result book.new }
{
    number_in(load(book, image))
}
