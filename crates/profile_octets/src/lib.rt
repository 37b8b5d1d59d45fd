// The host, the key and a component of a profile body, each as the caller's own octets.
#![tactic(auto)]

ghost use Rattle.cdr_fields.specs.Extents.{PartOf};
ghost use Rattle.profile_octets.specs.Octets.{host_extent, key_extent, component_extent};

// The host of a body, without its final zero; no octets of a refused body.
pub fn host(s: &[u8]) -> &[u8]
    ensures { PartOf s.entry (host_extent s.now) result }
{
    match profile::read(s) {
        Ok(profile) => cdr_fields::octets_in(s, profile.host),
        Err(_) => &s[0..0],
    }
}

// The key of a body; no octets of a refused body.
pub fn key(s: &[u8]) -> &[u8]
    ensures { PartOf s.entry (key_extent s.now) result }
{
    match profile::read(s) {
        Ok(profile) => cdr_fields::octets_in(s, profile.key),
        Err(_) => &s[0..0],
    }
}

// The octets of the component of a body that has a number; none where it is refused.
pub fn component_octets(s: &[u8], number: u64) -> &[u8]
    ensures { PartOf s.entry (component_extent s.now number) result }
{
    match profile::component(s, number) {
        Ok((_, octets)) => cdr_fields::octets_in(s, octets),
        Err(_) => &s[0..0],
    }
}
