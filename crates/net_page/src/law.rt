//! A law of pages.
ghost use Rattle.std.specs.Prelude.{List, ℕ, drop, length};
ghost use Rattle.net_base.specs.declared.history.Entry.{Entry};
ghost use Rattle.net_base.specs.declared.world.World.{World};
ghost use Rattle.net_page.specs.Page.{page};
ghost use Rattle.page_payload.specs.Parts.{ReadsBack};

/// Says that what follows the head of a page gives the input of the page again, byte by byte.
pub fn pages_are_read_back()
    ensures { (head tail input : List ℕ) (w : World) (h : List Entry)
        → ReadsBack (drop (length head) (page head tail input w h)) input }
{}
