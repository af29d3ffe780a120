// Laws of the definitions that contracts cite. Nobody needs to run the functions, which take no memory: their contracts are proved.
pub(crate) mod documents;
pub(crate) mod files;
pub(crate) mod places;
pub(crate) mod whole_files;
