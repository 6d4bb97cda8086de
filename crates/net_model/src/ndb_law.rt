//! Laws of the text of a database.
ghost use Rattle.std.specs.Prelude.{◌≡◌, ◌≢◌, ◌∷◌, ℕ, List, false, true, [], None, Some, codes};
ghost use Rattle.std.specs.List.{list_any};
ghost use Rattle.net_base.specs.Ndb.{NdbPair};
ghost use Rattle.net_base.specs.NdbText.{is_quote, words_of, plain_words_of, pairs_of, lines_of, tuples_of};
ghost use Rattle.net_base.specs.NdbBundle.{local_file, is_file_line, causes_of, bad_line, reading};
ghost use Rattle.net_model.specs.NdbFirst.{IsFirstBadFile};
ghost use Rattle.net_model.specs.NdbExample.{pair, tuple};
ghost use Rattle.net_model.specs.NdbWhole.{is_file_whole, is_file_first};
ghost use Rattle.formats.specs.NdbSpelling.{ReadsLine, ReadsFile, ReadsBundle};
ghost use Rattle.ndb_reader.specs.Written.{db_text};

/// A line spells one list of pairs at most.
pub fn lines_read_once()
    ensures { (line : List ℕ) (ps qs : List NdbPair) → ReadsLine line ps → ReadsLine line qs → ps ≡ qs }
{}

/// A line spells pairs exactly where it begins no file and has no cause but that of its place, and then it spells its own.
pub fn lines_are_spelled()
    ensures reads { (line : List ℕ) (pairs : List NdbPair) → ReadsLine line pairs → (pairs_of line ≡ pairs)
        × (causes_of true line ≡ []) }
    ensures spelled { (line : List ℕ) → is_file_line line ≡ false → causes_of true line ≡ []
        → ReadsLine line (pairs_of line) }
{}

/// The lines of a file spell one list of tuples at most.
pub fn files_read_once()
    ensures { (lines : List (List ℕ)) (ts us : List (List (List NdbPair))) → ReadsFile lines ts → ReadsFile lines us
        → ts ≡ us }
{}

/// A text of one file spells tuples exactly where it has no bad line, and then it spells its own.
pub fn files_are_spelled()
    ensures reads { (text : List ℕ) (tuples : List (List (List NdbPair))) → ReadsFile (lines_of text) tuples
        → (bad_line text ≡ None) × (tuples_of (lines_of text) ≡ tuples) }
    ensures spelled { (text : List ℕ) → list_any is_file_line (lines_of text) ≡ false → bad_line text ≡ None
        → ReadsFile (lines_of text) (tuples_of (lines_of text)) }
{}

/// A text reads as a database exactly where its lines spell it, as a bundle of files and the choice among them.
pub fn bundles_are_spelled()
    ensures reads { (text : List ℕ) (db : List (List (List NdbPair))) → ReadsBundle (lines_of text) db
        → reading text ≡ Some db }
    ensures spelled { (text : List ℕ) (db : List (List (List NdbPair))) → reading text ≡ Some db
        → ReadsBundle (lines_of text) db }
{}

/// What a text reads as is written as a text that reads as the same, exactly where it is whole.
pub fn written_databases_read_back()
    ensures whole { (text : List ℕ) (db : List (List (List NdbPair))) → reading text ≡ Some db → is_file_whole db ≡ true
        → reading (db_text db) ≡ Some db }
    ensures not_whole { (text : List ℕ) (db : List (List (List NdbPair))) → reading text ≡ Some db
        → is_file_whole db ≡ false
        → (db ≢ []) × (reading (db_text db) ≡ Some []) }
    ensures first { (text : List ℕ) (db : List (List (List NdbPair))) → reading text ≡ Some db
        → is_file_first (local_file (lines_of text)).tuples ≡ true → is_file_whole db ≡ true }
{}

/// A text reads as one database at most.
pub fn texts_read_once()
    ensures { (text : List ℕ) (db other : List (List (List NdbPair))) → reading text ≡ Some db
        → reading text ≡ Some other → db ≡ other }
{}

/// A line without a quote has the words that white space parts.
pub fn words_without_quotes()
    ensures { (line : List ℕ) → list_any is_quote line ≡ false → words_of line ≡ plain_words_of line }
{}

/// The line that is told is the first with a cause, and the cause is its least.
pub fn bad_lines_are_first()
    ensures { (text : List ℕ) (line cause : ℕ) → bad_line text ≡ Some (line, cause)
        → IsFirstBadFile causes_of (lines_of text) line cause }
{}

/// Bad lines, worked by hand.
pub fn worked_bad_lines()
    ensures unclosed { bad_line (codes "=\"a") ≡ Some (1, 2) }
    ensures nameless { bad_line (codes "a=\"b\"c =d") ≡ Some (1, 3) }
    ensures least_of_three { bad_line (codes "a=\"b\"c x=\"d") ≡ Some (1, 2) }
    ensures followed { bad_line (codes "a=\"b\"#c") ≡ Some (1, 4) }
    ensures two_names { bad_line (codes "a=b\n%file c d\n") ≡ Some (2, 6) }
    ensures file_without_tuple { bad_line (codes "a=b\n%file c\n\td=e\n") ≡ Some (3, 1) }
{}

/// Readings, worked by hand.
pub fn worked_readings()
    ensures quoted { reading (codes "a=\"b c\" d\r\n\te=f\"g #h\n")
        ≡ Some (((pair (codes "a") (codes "b c") ∷ pair (codes "d") [] ∷ []) ∷ (pair (codes "e") (codes "f\"g") ∷ [])
        ∷ []) ∷ []) }
    ensures chosen { reading (codes "database=\n\tfile=x file=y file=x\n%file x\na=b\n%file y\nc=d\n%file x\ne=f\n%file z\ng=h\n")
        ≡ Some (tuple (codes "a") (codes "b") ∷ tuple (codes "e") (codes "f") ∷ tuple (codes "c") (codes "d") ∷ []) }
    ensures no_local { reading (codes "%file x\na=b\n") ≡ Some [] }
    ensures no_names { reading (codes "database=\n%file x\na=b\n") ≡ Some (tuple (codes "database") [] ∷ []) }
    ensures no_such_file { reading (codes "database= file=\n%file x\na=b\n") ≡ Some [] }
{}

/// Databases that are written, worked by hand.
pub fn worked_written_databases()
    ensures lines { db_text (((pair (codes "a") (codes "b c") ∷ pair (codes "d") [] ∷ [])
        ∷ (pair (codes "e") (codes "f\"g") ∷ []) ∷ []) ∷ [])
        ≡ codes "a=\"b c\" d=\n\te=f\"g\n" }
    ensures not_whole { reading (codes "database file=x\n%file x\ndatabase file=x\n")
        ≡ Some (((pair (codes "database") [] ∷ pair (codes "file") (codes "x") ∷ []) ∷ []) ∷ []) }
    ensures read_as_none { reading (db_text (((pair (codes "database") [] ∷ pair (codes "file") (codes "x") ∷ [])
        ∷ []) ∷ []))
        ≡ Some [] }
{}
