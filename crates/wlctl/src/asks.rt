//! What words ask of files.

ghost use Rattle.std.specs.Prelude.{◌≡◌, map, option_map, string_bytes};
ghost use Rattle.wlctl.specs.Asks.{is_place, is_absolute, is_keep, is_envoy, is_write, kept_in, written_to, is_bundles_write, kind_named, bundles_to};

use bundle_files::BundleKind;
use std::string::String;

/// Whether a word may be a folder's path: it isn't empty and isn't an option.
fn is_place(word: &str) -> bool
    ensures { result ≡ is_place word.now }
{
    match word.as_bytes() {
        [first, ..] => *first != b'-',
        [] => false,
    }
}

fn is_absolute(word: &str) -> bool
    ensures { result ≡ is_absolute word.now }
{
    match word.as_bytes() {
        [first, ..] => *first == b'/',
        [] => false,
    }
}

fn is_keep(command: &str) -> bool
    ensures { result ≡ is_keep command.now }
{
    command == "keep"
}

fn is_envoy(option: &str) -> bool
    ensures { result ≡ is_envoy option.now }
{
    option == "--envoy"
}

fn is_write(command: &str, what: &str, option: &str) -> bool
    ensures { result ≡ is_write command.now what.now option.now }
{
    command == "fetch" && what == "x509" && option == "--write"
}

/// The folder of `keep FOLDER`, and whether Envoy's file is due.
pub fn kept_in(words: &[String]) -> Option<(&str, bool)>
    ensures { option_map (λ p. (p.0.now, p.1)) result ≡ kept_in (map string_bytes words.now) }
{
    match words {
        [command, folder] if is_keep(command.as_str()) && is_place(folder.as_str()) => {
            Some((folder.as_str(), false))
        }
        [command, folder, envoy]
            if is_keep(command.as_str())
                && is_envoy(envoy.as_str())
                && is_absolute(folder.as_str()) => { Some((folder.as_str(), true)) }
        _ => None,
    }
}

/// The folder of `fetch x509 --write FOLDER`, and whether Envoy's file is due.
pub fn written_to(words: &[String]) -> Option<(&str, bool)>
    ensures { option_map (λ p. (p.0.now, p.1)) result ≡ written_to (map string_bytes words.now) }
{
    match words {
        [command, what, option, folder]
            if is_write(command.as_str(), what.as_str(), option.as_str())
                && is_place(folder.as_str()) => { Some((folder.as_str(), false)) }
        [command, what, option, folder, envoy]
            if is_write(command.as_str(), what.as_str(), option.as_str())
                && is_envoy(envoy.as_str())
                && is_absolute(folder.as_str()) => { Some((folder.as_str(), true)) }
        _ => None,
    }
}

/// Which bundles a word names.
fn kind_named(what: &str) -> Option<BundleKind>
    ensures { result ≡ kind_named what.now }
{
    if what == "bundles" {
        return Some(BundleKind::X509);
    }
    if what == "jwt-bundles" {
        return Some(BundleKind::Jwt);
    }
    None
}

fn is_bundles_write(command: &str, option: &str) -> bool
    ensures { result ≡ is_bundles_write command.now option.now }
{
    command == "fetch" && option == "--write"
}

/// Which bundles, and the folder of `fetch bundles --write FOLDER` and `fetch jwt-bundles --write FOLDER`.
pub fn bundles_to(words: &[String]) -> Option<(BundleKind, &str)>
    ensures { option_map (λ p. (p.0, p.1.now)) result ≡ bundles_to (map string_bytes words.now) }
{
    match words {
        [command, what, option, folder]
            if is_bundles_write(command.as_str(), option.as_str()) && is_place(folder.as_str()) => {
            Some((kind_named(what.as_str())?, folder.as_str()))
        }
        _ => None,
    }
}
