// The lines of the bench program, each written at the end of a page.
#![tactic(auto)]

ghost use Rattle.std.specs.Prelude.{◌≡◌, ◌+◌, ◌*◌, ◌≤◌, length};
ghost use Rattle.model.specs.Lines.{sheet_line, maps_line, map_line};
ghost use Rattle.model.specs.Says.{sheet_says, realized_says, list_says};
ghost use Rattle.lines.specs.Written.{Line, told_line};

pub mod page;

use crate::page::Page;
use model::{Answer, Counts};
use terms::Node;

// "sheet good terms 9 skeletons 2", or "sheet refused N place P skeleton K"
pub fn sheet_line(answer: Answer<Counts>, page: &mut Page<'_>)
    requires { page.old.end + 72 ≤ length page.old.bytes.now }
    ensures text { Line 72 page.old.bytes.now page.old.end
        (sheet_line (sheet_says answer)) page.new.bytes.now page.new.end }
    ensures same_buffer { page.new.bytes.ghost_name ≡ page.old.bytes.ghost_name }
{
    match answer {
        Ok(counts) => {
            page.put_large(b"sheet good terms ", counts.terms);
            page.put_large(b" skeletons ", counts.skeletons);
            page.put(b"\n");
        }
        Err(r) => {
            page.put_small(b"sheet refused ", u8::from(r.reason));
            page.put_large(b" place ", r.place);
            page.put_small(b" skeleton ", r.skeleton);
            page.put(b"\n");
        }
    }
}

// "skeleton 0 open at 0 1", or "skeleton 1 realized"; nothing of a refusal
pub fn skeleton_line(k: u8, open: Answer<Option<Node>>, page: &mut Page<'_>)
    requires { page.old.end + 72 ≤ length page.old.bytes.now }
    ensures text { Line 72 page.old.bytes.now page.old.end
        (told_line k (realized_says «open»)) page.new.bytes.now page.new.end }
    ensures same_buffer { page.new.bytes.ghost_name ≡ page.old.bytes.ghost_name }
{
    match open {
        Ok(None) => {
            page.put_small(b"skeleton ", k);
            page.put(b" realized\n");
        }
        Ok(Some(node)) => {
            page.put_small(b"skeleton ", k);
            page.put_small(b" open at ", node.strand.0);
            page.put_small(b" ", node.position);
            page.put(b"\n");
        }
        Err(_) => {}
    }
}

// "maps 0 to 1: 1", or "maps 0 to 1 refused 16"
pub fn maps_line(source: u8, target: u8, answer: Answer<usize>, page: &mut Page<'_>)
    requires { page.old.end + 72 ≤ length page.old.bytes.now }
    ensures text { Line 72 page.old.bytes.now page.old.end
        (maps_line source target (list_says answer)) page.new.bytes.now page.new.end }
    ensures same_buffer { page.new.bytes.ghost_name ≡ page.old.bytes.ghost_name }
{
    page.put_small(b"maps ", source);
    page.put_small(b" to ", target);
    match answer {
        Ok(count) => {
            page.put_large(b": ", count);
            page.put(b"\n");
        }
        Err(r) => {
            page.put_small(b" refused ", u8::from(r.reason));
            page.put(b"\n");
        }
    }
}

// The strand numbers of a map, parted by one space.
pub fn map_line(map: &[u8], page: &mut Page<'_>)
    requires { page.old.end + 4 * length map.now + 1 ≤ length page.old.bytes.now }
    ensures text { Line (4 * length map.now + 1) page.old.bytes.now page.old.end
        (map_line map.now) page.new.bytes.now page.new.end }
    ensures same_buffer { page.new.bytes.ghost_name ≡ page.old.bytes.ghost_name }
{
    let Some((first, rest)) = map.split_first() else {
        page.put(b"\n");
        return;
    };
    page.put_small(b"", *first);
    for strand in rest {
        page.put_small(b" ", *strand);
    }
    page.put(b"\n");
}
