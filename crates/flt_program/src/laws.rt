// What holds of every listing, stated on functions that do nothing.
ghost use Rattle.flt_program.specs.Parts.{FieldsAreTold, LayersAreTold, LiteralsAreTold, PrefixesAreTold, RangesAreTold, StringsAreTold};
ghost use Rattle.flt_program.specs.Told.{ListingsTell};

/// A listing tells its program: those with the same one have the same instructions, with parts that are written alike.
pub fn listings_tell_programs()
    ensures { ListingsTell }
{}

/// Fields with their layers, ranges, strings, and literals of one kind with their prefix lengths that are written alike are the same.
pub fn parts_are_told()
    ensures fields { FieldsAreTold }
    ensures layers { LayersAreTold }
    ensures ranges { RangesAreTold }
    ensures strings { StringsAreTold }
    ensures literals { LiteralsAreTold }
    ensures prefixes { PrefixesAreTold }
{}
