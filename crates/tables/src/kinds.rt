// The kinds of terms.
ghost use Rattle.std.specs.Prelude.{◌≡◌, ◌&&◌, ◌||◌, ◌<◌, ◌≤◌, leb, eqb};
ghost use Rattle.tables.specs.Kinds.{code, Numbers};

// A term's kind. Its number on a sheet is its place here.
#[derive(Clone, Copy, PartialEq, Eq, PartialOrd, Ord)]
pub enum Kind {
    Tag,
    Mesg,
    Text,
    Data,
    Name,
    Skey,
    Akey,
    Public,
    Inverse,
    LongTerm,
    Pair,
    Encryption,
    Hash,
}

// A number that is no kind's.
#[derive(Clone, Copy)]
pub struct NoKind(pub u8);

impl From<Kind> for u8 {
    ghost from_gives = { λ kind number. number ≡ code kind };

    fn from(kind: Kind) -> u8 {
        kind as u8
    }
}

impl TryFrom<u8> for Kind {
    type Error = NoKind;

    ghost try_from_gives = { Numbers };

    fn try_from(number: u8) -> Result<Kind, NoKind> {
        if number < 13 {
            return Ok(Kind::numbered(number));
        }
        Err(NoKind(number))
    }
}

impl Kind {
    // The kind of this number.
    pub fn numbered(number: u8) -> Kind
        requires { number < 13 }
        ensures { code result ≡ number }
    {
        match number {
            0 => Kind::Tag,
            1 => Kind::Mesg,
            2 => Kind::Text,
            3 => Kind::Data,
            4 => Kind::Name,
            5 => Kind::Skey,
            6 => Kind::Akey,
            7 => Kind::Public,
            8 => Kind::Inverse,
            9 => Kind::LongTerm,
            10 => Kind::Pair,
            11 => Kind::Encryption,
            _ => Kind::Hash,
        }
    }

    // Its number, with its bound, which `From` does not say.
    pub fn number(self) -> u8
        ensures { (result ≡ code self) × (result ≤ 12) }
    {
        u8::from(self)
    }

    // Equality, as the specifications ask it: `==` promises equal kinds, and they speak of equal numbers.
    pub fn is(self, other: Kind) -> bool
        ensures { result ≡ eqb (code self) (code other) }
    {
        self == other
    }

    // Whether a term of this kind is a variable.
    pub fn is_variable(self) -> bool
        ensures { result ≡ (leb 1 (code self) && leb (code self) 6) }
    {
        (Kind::Mesg <= self) & (self <= Kind::Akey)
    }

    // Whether it is an atom.
    pub fn is_atom(self) -> bool
        ensures { result ≡ (leb 2 (code self) && leb (code self) 9) }
    {
        (Kind::Text <= self) & (self <= Kind::LongTerm)
    }

    // Whether it is an asymmetric key that is no inverse.
    pub fn is_key(self) -> bool
        ensures { result ≡ (eqb (code self) 6 || eqb (code self) 7) }
    {
        matches!(self, Kind::Akey | Kind::Public)
    }

    // Whether its first argument is a term. For the kinds below, it is just a number.
    pub fn has_first(self) -> bool
        ensures { result ≡ leb 7 (code self) }
    {
        Kind::Public <= self
    }

    // Whether it has a second argument.
    pub fn has_second(self) -> bool
        ensures { result ≡ (leb 9 (code self) && leb (code self) 11) }
    {
        matches!(self, Kind::LongTerm | Kind::Pair | Kind::Encryption)
    }
}
