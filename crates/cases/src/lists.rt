// Lists on the desk's lines: each answer is worked out from the paper's words on one page, one moment.
ghost use Rattle.std.specs.Prelude.{◌≤◌, length};
ghost use Rattle.reply.specs.Printed.{answer_room};

use script::runs;

// Depot 0 writes bearing 0, and on it bearing 1. Depot 1 has taken both, and the stamp 2 of each shelf; its shelf 1 alone is refreshed. So its shelf 1 shows the second and its shelf
// 0 still hides the first.
fn torn(book: &mut [u32], out: &mut [u8]) -> bool
    requires { answer_room ≤ length out.old }
{
    let written = runs(
        book,
        out,
        b"S 2 2 4 2 0 1\n0\nW 0 0 20 1065353216 1065353216\n0 1 C\nK 0 1\n0\nW 0 1 30 1065353216 1065353216\n0 2 C\nK 0 0\n0\n",
    );
    let taken = runs(
        book,
        out,
        b"T 1 0 0\n0\nT 1 0 0\n0\nT 1 1 0\n0\nT 1 1 0\n0\nF 1 1\n0\n",
    );
    written && taken
}

// A plain read of bearing 0 says unwritten there. A page has both: all home shelves are raised with what any of them has. In list order, and a bearing twice alike.
fn whole_page(book: &mut [u32], out: &mut [u8]) -> bool
    requires { answer_room ≤ length out.old }
{
    let plain = runs(book, out, b"R 1 0\n0 - 0 0\n");
    let page = runs(
        book,
        out,
        b"L 1 0 1\n0 20 1065353216 1065353216 1 0 30 1065353216 1065353216 2 0\n",
    );
    let twice = runs(
        book,
        out,
        b"L 1 1 2 1\n0 30 1065353216 1065353216 2 0 - 0 0 30 1065353216 1065353216 2 0\n",
    );
    plain && page && twice
}

// None and nine are BAD LIST, after BAD CREW and before BAD KEY; eight are not.
fn counts(book: &mut [u32], out: &mut [u8]) -> bool
    requires { answer_room ≤ length out.old }
{
    let refused = runs(
        book,
        out,
        b"L 1\n15\nL 1 0 1 2 3 0 1 2 3 0\n15\nL 2\n5\nL 1 4 4 4 4 4 4 4 4 4\n15\nL 1 0 4\n4\nL\n13\n",
    );
    let eight = runs(
        book,
        out,
        b"L 1 2 2 2 2 2 2 2 3\n0 - 0 0 - 0 0 - 0 0 - 0 0 - 0 0 - 0 0 - 0 0 - 0 0\n",
    );
    refused && eight
}

// (p) a page at one moment. What its reader then writes rests on all of it: its vector is (2, 1).
pub fn case_p(book: &mut [u32], out: &mut [u8]) -> bool
    requires { answer_room ≤ length out.old }
{
    let made = torn(book, out);
    let read = whole_page(book, out);
    let counted = counts(book, out);
    let rests = runs(
        book,
        out,
        b"W 1 2 44 1065353216 1065353216\n0 1 C\nL 1 2\n0 44 1065353216 1065353216 2 1\n",
    );
    made && read && counted && rests
}
