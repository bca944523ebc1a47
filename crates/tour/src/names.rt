// The surfaces and links of the program, and their names.
ghost use Rattle.std.specs.Prelude.{◌≡◌, map};
ghost use Rattle.tour.specs.Names.{terms, links, name as name_in};

// A card has its terms and links as plain numbers, so these are numbers: each use would turn an enum into one.
pub const WET: u16 = 2;

pub const SLICK: u16 = 3;

pub const RISKY: u16 = 4;

pub const ICE: u16 = 5;

pub const SMOOTH: u16 = 6;

pub const FLOOR: u16 = 7;

pub const MOSS: u16 = 8;

pub const COLD: u16 = 9;

pub const OVER: u16 = 0;

pub const NEAR: u16 = 1;

// The names of the terms, in the order of their numbers.
const TERMS: [&str; 10] = [
    "any", "none", "wet", "slick", "risky", "ice", "smooth", "floor", "moss", "cold",
];

// The names of the links, in the order of their numbers.
const LINKS: [&str; 2] = ["over", "near"];

// The name that stands at a number's place.
fn name(names: &[&'static str], number: u16) -> &'static str
    ensures { result.now ≡ name_in (map (λ name. name.now) names.now) number }
{
    names.get(usize::from(number)).copied().unwrap_or("unnamed")
}

// The name of a term.
pub fn term(number: u16) -> &'static str
    ensures { result.now ≡ name_in terms number }
{
    name(&TERMS, number)
}

// The name of a link.
pub fn link(number: u16) -> &'static str
    ensures { result.now ≡ name_in links number }
{
    name(&LINKS, number)
}
