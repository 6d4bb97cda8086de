//! Laws of the text of a world.
ghost use Rattle.std.specs.Prelude.{◌≡◌, ◌↔◌, ◌≤◌, ◌∷◌, ◌++◌, List, [], ℕ, length, map, Ok, Err, None, true, false, codes, bytes_eq};
ghost use Rattle.std.specs.List.{filter, list_all, list_any};
ghost use Rattle.net_base.specs.declared.world.World.{World};
ghost use Rattle.net_base.specs.declared.world.MediumSpec.{MediumSpec};
ghost use Rattle.net_base.specs.World.{IsWorld, all_apart, is_byte};
ghost use Rattle.world_text.specs.VersionLines.{bad_version_line, versions_in};
ghost use Rattle.net_base.specs.NdbText.{lines_of};
ghost use Rattle.world_text.specs.WorkedUdp.{datagram_world};
ghost use Rattle.world_text.specs.declared.line.WorldLine.{WorldLine};
ghost use Rattle.world_text.specs.LineFit.{is_fit};
ghost use Rattle.world_text.specs.LineReading.{read_line};
ghost use Rattle.world_text.specs.WorldExample.{datagram_head, datagram_text, every_line};
ghost use Rattle.world_text.specs.WorldLines.{line_verdict, opening_draft, Draft, Goes};
ghost use Rattle.world_text.specs.WorldRefusal.{IsBadLineOf, IsTextRefused, LeadsToWorld};
ghost use Rattle.world_text.specs.WorldText.{world_reading};
ghost use Rattle.world_text.specs.WorldSpelling.{IsWorldText, is_line, laid, lines_of_world, speaks, line_spelling};

/// A line whose names, numbers and steps are of their kind is read exactly where it is spelled.
pub fn lines_are_spelled()
    ensures sound { (text : List ℕ) (line : WorldLine) → read_line text ≡ Ok line → (text ≡ line_spelling line)
        × (is_fit line ≡ true) }
    ensures complete { (line : WorldLine) → is_fit line ≡ true → read_line (line_spelling line) ≡ Ok line }
{}

/// A text of bytes is read as a world exactly where it spells it.
pub fn worlds_are_spelled()
    ensures sound { (text : List ℕ) (w : World) → list_all is_byte text ≡ true → world_reading text ≡ Ok w
        → IsWorldText text w }
    ensures complete { (text : List ℕ) (w : World) → IsWorldText text w → world_reading text ≡ Ok w }
{}

/// A text says one world at most.
pub fn texts_say_one_world()
    ensures { (text : List ℕ) (v w : World) → IsWorldText text v → IsWorldText text w → v ≡ w }
{}

/// Each world has a text: its lines, `ndb`, a text of its versions.
pub fn worlds_have_texts()
    ensures { (w : World) (bundle : List ℕ) → IsWorld w
        → bad_version_line bundle ≡ None → w.dbs ≡ versions_in (lines_of bundle)
        → IsWorldText (laid (lines_of_world w) ++ (codes "ndb\n" ++ bundle)) w }
{}

/// Empty lines and comments before `ndb` say nothing.
pub fn passed_lines_say_nothing()
    ensures { (lines others : List (List ℕ)) (tail : List ℕ) (w : World)
        → list_all is_line lines ≡ true → list_all is_line others ≡ true
        → list_any (bytes_eq (codes "ndb")) lines ≡ false
        → filter speaks lines ≡ filter speaks others
        → world_reading (laid lines ++ tail) ≡ Ok w → world_reading (laid others ++ tail) ≡ Ok w }
{}

/// A refusal tells the first bad line and its cause, whatever follows that line.
pub fn first_bad_lines_are_told()
    ensures exact { (text : List ℕ) (n c : ℕ) → (world_reading text ≡ Err (n, c)) ↔ IsTextRefused opening_draft 1 text
        n c }
    ensures stays { (text more : List ℕ) (n c : ℕ) → IsBadLineOf opening_draft 1 text n c
        → world_reading (text ++ (10 ∷ more)) ≡ Err (n, c) }
{}

/// What lines lead to has at most 4 media, each with a name of its own, 8 hosts and 32 scripts, and leads on by each line that is good behind it.
pub fn worlds_so_far_are_small()
    ensures next { (lines : List (List ℕ)) (line : List ℕ) (d e : Draft) → LeadsToWorld opening_draft lines d
        → line_verdict d line ≡ Goes e → LeadsToWorld opening_draft (lines ++ line ∷ []) e }
    ensures media { (lines : List (List ℕ)) (d : Draft) → LeadsToWorld opening_draft lines d → length d.media ≤ 4 }
    ensures named { (lines : List (List ℕ)) (d : Draft) → LeadsToWorld opening_draft lines d
        → all_apart bytes_eq (map (λ (s : MediumSpec). s.name) d.media) ≡ true }
    ensures hosts { (lines : List (List ℕ)) (d : Draft) → LeadsToWorld opening_draft lines d → length d.hosts ≤ 8 }
    ensures scripts { (lines : List (List ℕ)) (d : Draft) → LeadsToWorld opening_draft lines d → length d.scripts ≤ 32 }
{}

/// The lines of two worlds, by computation, and the text of one of them.
pub fn worked_world_lines()
    ensures one_datagram { laid (lines_of_world datagram_world) ≡ datagram_head }
    ensures its_text { world_reading datagram_text ≡ Ok datagram_world }
    ensures every_line { laid (lines_of_world every_line)
        ≡ codes "networld 2\nend 60000\nseed 18446744073709551615\nmedium ether0 1500\n"
        ++ (codes "rates ether0 10 0 20\nfate ether0 1 lose\nfate ether0 3-5 deliver\n"
        ++ (codes "medium ether1 576\nhost gate udp il\nif ether1 10.0.0.1 255.0.0.0\n"
        ++ (codes "if ether0 135.104.9.1 255.255.255.0\nroute 0.0.0.0 0.0.0.0 10.0.0.2\nstart 7\n"
        ++ (codes "start 4294967295\nscript gate\nuntil 10\nopen c /net/il/clone\n"
        ++ (codes "open d /net/cs rw\nread d 8192\nwrite d two  words\nwritex d 000aff\n"
        ++ (codes "writex d -\nclose d\nls /net\ncs net!$auth!9fs\nrefresh\ndial e il!helix!9fs\n"
        ++ (codes "announce a il!*!9fs\nlisten l a\naccept f l\nreject l\nhangup e\n"
        ++ (codes "hread a 512\nhwrite a 00000000000000000000ffff8768090600000000000000000000ffff8768091f"
        ++ (codes "00000000000000000000ffff8768091f138800356869\ndns a 1000\n"
        ++ codes "import e\nropen r e /net/udp/clone rw\nrread r 32\nrwrite r two  words\nrclose r\nexport f\n"))))))))) }
{}
