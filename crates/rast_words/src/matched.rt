// What a subcommand's matches say.
ghost use Rattle.std.specs.Prelude.{◌≡◌};
ghost use Rattle.clap.specs.Words.{found_of, rows_of};
ghost use Rattle.rast_words.specs.Matched.{text_at, number_at, is_set};

use clap::ArgMatches;

// The text of an argument, which is empty where it has none.
pub(crate) fn text<'a>(matches: &ArgMatches<'a>, id: &str) -> &'a str
    ensures { result.now ≡ text_at id.now (rows_of (found_of matches.now)) }
{
    matches.get_str(id).unwrap_or("")
}

// The number of an option, which is `fallback` where it has none.
pub(crate) fn number(matches: &ArgMatches<'_>, id: &str, fallback: u32) -> u32
    ensures { result ≡ number_at fallback id.now (rows_of (found_of matches.now)) }
{
    matches.get_one::<u32>(id).unwrap_or(fallback)
}

// Whether a flag was set.
pub(crate) fn is_set(matches: &ArgMatches<'_>, id: &str) -> bool
    ensures { result ≡ is_set id.now (rows_of (found_of matches.now)) }
{
    text(matches, id) == "true"
}
